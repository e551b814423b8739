// The error that answers each rule that fails.
ghost use Rattle.std.specs.Prelude.{◌≡◌};
ghost use Rattle.paper.specs.ErrorCodes.{error_of};

use paper::Rule;

const BADADDR: u32 = 1;

const ACCESS: u32 = 2;

const OUTSTATE: u32 = 3;

const BADCORR: u32 = 5;

const UNSUPPORTED: u32 = 7;

const BADPPA: u32 = 8;

const BADPRIM: u32 = 9;

const BADQOSTYPE: u32 = 0x0b;

const BADTOKEN: u32 = 0x0c;

const BOUND: u32 = 0x0d;

const NOTSUPPORTED: u32 = 0x12;

const NOAUTO: u32 = 0x16;

const PENDING: u32 = 0x1b;

// (The enum is `Rule`; its error is a number of the header that only ever goes into a message, and no `From` would say so much.)
pub fn error_of(rule: Rule) -> u32
    ensures { result ≡ error_of rule }
{
    match rule {
        Rule::NotSupported => NOTSUPPORTED,
        Rule::NotServed => BADPRIM,
        Rule::TooShort => BADPRIM,
        Rule::NoRow => OUTSTATE,
        Rule::UnknownPpa => BADPPA,
        Rule::UnknownMode => UNSUPPORTED,
        Rule::Management => UNSUPPORTED,
        Rule::AutomaticXid => NOAUTO,
        Rule::SapNotAllowed => BADADDR,
        Rule::TypeInModeOne => UNSUPPORTED,
        Rule::ListenedFor => BOUND,
        Rule::ConnectQos => BADQOSTYPE,
        Rule::AddressLength => BADADDR,
        Rule::AddressTooEarly => BADADDR,
        Rule::AddressTooLate => BADADDR,
        Rule::AddressSapOdd => BADADDR,
        Rule::AcceptNotOpen => BADCORR,
        Rule::AcceptQos => BADQOSTYPE,
        Rule::OthersOpen => PENDING,
        Rule::TokenOfNone => BADTOKEN,
        Rule::CarrierNotIdle => OUTSTATE,
        Rule::CarrierOfOtherPpa => ACCESS,
        Rule::CarrierConnectionless => ACCESS,
        Rule::DenialNotOpen => BADCORR,
        Rule::NumberNotZero => BADCORR,
        Rule::DatagramNoRow => OUTSTATE,
        Rule::DatagramLength => BADADDR,
        Rule::DatagramTooEarly => BADADDR,
        Rule::DatagramTooLate => BADADDR,
        Rule::DatagramSapNotAllowed => BADADDR,
    }
}
