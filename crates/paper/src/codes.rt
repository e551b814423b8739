// What a user's message asks for, by its code.
ghost use Rattle.std.specs.Prelude.{◌≡◌};
ghost use Rattle.paper.specs.Messages.{other_code, primitive_of};

use crate::Primitive;

// The codes that are not in the paper's table: seven of them are known, but not supported.
fn other_code(code: u32) -> Primitive
    ensures { result ≡ other_code code }
{
    match code {
        0x0a => Primitive::NotSupported,
        0x15 => Primitive::NotSupported,
        0x1b => Primitive::NotSupported,
        0x1d => Primitive::NotSupported,
        0x1e => Primitive::NotSupported,
        0x1f => Primitive::NotSupported,
        0x20 => Primitive::NotSupported,
        _ => Primitive::NotServed,
    }
}

impl From<u32> for Primitive {
    ghost from_gives = { λ code p. p ≡ primitive_of code };

    // The codes of the paper's table.
    fn from(code: u32) -> Primitive {
        match code {
            0x00 => Primitive::Info,
            0x0b => Primitive::Attach,
            0x0c => Primitive::Detach,
            0x02 => Primitive::Unbind,
            0x01 => Primitive::Bind,
            0x0d => Primitive::Connect,
            0x0f => Primitive::ConnectRes,
            0x11 => Primitive::Token,
            0x13 => Primitive::Disconnect,
            0x17 => Primitive::Reset,
            0x19 => Primitive::ResetRes,
            0x07 => Primitive::Unitdata,
            _ => other_code(code),
        }
    }
}
