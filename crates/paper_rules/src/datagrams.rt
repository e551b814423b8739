// A datagram's address: the first rule that fails, or what serves.
ghost use Rattle.std.specs.Prelude.{◌≡◌};
ghost use Rattle.paper.specs.Datagrams.{could_be_bound, judge_datagram};

use crate::saps::{is_sap, is_type};
use paper::{Form, Rule, Service, Stream, UnitdataRequest};

// A SAP that a bind could take: one byte is a SAP, two bytes are a type.
fn could_be_bound(form: Form, sap: u16) -> bool
    ensures { result ≡ could_be_bound form sap }
{
    match form {
        Form::WithSap => is_sap(sap as u32),
        Form::WithType => is_type(sap as u32),
    }
}

// The address has the stream's own form, and lies behind the fixed fields and within L.
pub fn judge_datagram(s: Stream, u: UnitdataRequest) -> Result<Service, Rule>
    ensures { result ≡ judge_datagram s u }
{
    let form = Form::of_sap(s.sap);
    if u.length as usize != form.length() {
        return Err(Rule::DatagramLength);
    }
    let at = u.offset;
    if at < 20 {
        return Err(Rule::DatagramTooEarly);
    }
    // the sum does not wrap
    let end = at as u64 + u.length as u64;
    if (u.size as u64) < end {
        return Err(Rule::DatagramTooLate);
    }
    if !could_be_bound(form, u.sap) {
        return Err(Rule::DatagramSapNotAllowed);
    }
    Ok(Service::Unitdata(at as u8, form))
}
