// Messages from a user, from bytes to requests.
#![tactic(auto)]

ghost use Rattle.std.specs.Prelude.{◌≡◌, ◌≤◌, length};
ghost use Rattle.octets.specs.Runs.{part};
ghost use Rattle.octets.specs.Blocks.{block_size};
ghost use Rattle.paper.specs.Base.{address_size, length_of};
ghost use Rattle.paper.specs.Messages.{code_in, sized, read_as, asked_by};
ghost use Rattle.paper.specs.declared.Primitive.TheVariants as primitive;
ghost use Rattle.wire_messages.specs.Whole.{Whole};

use paper::{
    BindRequest, ConnectRequest, ConnectResponse, Correlation, DisconnectRequest, Form, MAC_SIZE,
    PpaNumber, Primitive, Request, Rule, Token, UnitdataRequest,
};

pub fn code_in(m: &[u8]) -> u32
    requires { 4 ≤ length m.now }
    ensures { result ≡ code_in m.now }
{
    octets::number_inside::<u32>(m, 0)
}

// A message under its size asks for nothing.
fn of_size(size: usize, m: &[u8], q: Request) -> Result<Request, Rule>
    ensures { result ≡ sized size m.now q }
{
    if m.len() < size {
        return Err(Rule::TooShort);
    }
    Ok(q)
}

fn attach_in(m: &[u8]) -> Result<Request, Rule>
    ensures { result ≡ read_as primitive.Attach m.now }
{
    let ppa = PpaNumber(octets::number_at::<u32>(m, 4));
    of_size(8, m, Request::Attach(ppa))
}

fn bind_in(m: &[u8]) -> Result<Request, Rule>
    ensures { result ≡ read_as primitive.Bind m.now }
{
    let asked = BindRequest {
        sap: octets::number_at::<u32>(m, 4),
        most: octets::number_at::<u32>(m, 8),
        mode: octets::number_at::<u16>(m, 12),
        management: octets::number_at::<u16>(m, 14),
        xidtest: octets::number_at::<u32>(m, 16),
    };
    of_size(20, m, Request::Bind(asked))
}

// The offset is the user's word: the address may end past the message, where its last byte reads as 0.
fn connect_in(m: &[u8]) -> Result<Request, Rule>
    requires { length m.now ≤ block_size }
    ensures { result ≡ read_as primitive.Connect m.now }
{
    let offset = octets::number_at::<u32>(m, 8);
    let asked = ConnectRequest {
        length: octets::number_at::<u32>(m, 4),
        offset,
        qos: octets::number_at::<u32>(m, 12),
        size: m.len() as u8,
        last: octets::byte_at(m, offset as usize + MAC_SIZE),
    };
    of_size(24, m, Request::Connect(asked))
}

fn connect_res_in(m: &[u8]) -> Result<Request, Rule>
    ensures { result ≡ read_as primitive.ConnectRes m.now }
{
    let answer = ConnectResponse {
        correlation: Correlation(octets::number_at::<u32>(m, 4)),
        token: Token(octets::number_at::<u32>(m, 8)),
        qos: octets::number_at::<u32>(m, 12),
    };
    of_size(24, m, Request::ConnectRes(answer))
}

fn disconnect_in(m: &[u8]) -> Result<Request, Rule>
    ensures { result ≡ read_as primitive.Disconnect m.now }
{
    let asked = DisconnectRequest {
        reason: octets::number_at::<u32>(m, 4),
        correlation: Correlation(octets::number_at::<u32>(m, 8)),
    };
    of_size(12, m, Request::Disconnect(asked))
}

// The SAP or type is read in the form that the address length has. As in a connect, a byte past the message reads as 0.
fn unitdata_in(m: &[u8]) -> Result<Request, Rule>
    requires { length m.now ≤ block_size }
    ensures { result ≡ read_as primitive.Unitdata m.now }
{
    let length = octets::number_at::<u32>(m, 4);
    let offset = octets::number_at::<u32>(m, 8);
    let asked = UnitdataRequest {
        length,
        offset,
        size: m.len() as u8,
        sap: paper::sap_at(m, Form::of_length(length), offset as usize + MAC_SIZE),
    };
    of_size(20, m, Request::Unitdata(asked))
}

// Step 1 of the order of errors: what a message of at least four bytes asks for.
pub fn asked_by(m: &[u8]) -> Result<Request, Rule>
    requires { Whole m.now }
    ensures { result ≡ asked_by m.now }
{
    match Primitive::from(code_in(m)) {
        Primitive::Info => of_size(4, m, Request::Info),
        Primitive::Attach => attach_in(m),
        Primitive::Detach => of_size(4, m, Request::Detach),
        Primitive::Unbind => of_size(4, m, Request::Unbind),
        Primitive::Bind => bind_in(m),
        Primitive::Connect => connect_in(m),
        Primitive::ConnectRes => connect_res_in(m),
        Primitive::Token => of_size(4, m, Request::Token),
        Primitive::Disconnect => disconnect_in(m),
        Primitive::Reset => of_size(4, m, Request::Reset),
        Primitive::ResetRes => of_size(4, m, Request::ResetRes),
        Primitive::Unitdata => unitdata_in(m),
        Primitive::NotSupported => Err(Rule::NotSupported),
        Primitive::NotServed => Err(Rule::NotServed),
    }
}

// An address is seven bytes: the MAC, then the SAP.
pub fn address_at<'a>(m: &'a [u8], at: u8) -> &'a [u8]
    ensures { result.now ≡ part m.now at address_size }
{
    address_in(m, at, Form::WithSap)
}

// A datagram's address, of the bytes of its form, as that part of the lent block.
pub fn address_in<'a>(block: &'a [u8], at: u8, form: Form) -> &'a [u8]
    ensures { result.now ≡ part block.now at (length_of form) }
{
    octets::part_at(block, at as usize, form.length())
}
