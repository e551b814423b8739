// Step 4 of the order of errors: which SAPs a bind may name, and what it grants.
ghost use Rattle.std.specs.Prelude.{◌≡◌};
ghost use Rattle.ledger.specs.Choice.{either};
ghost use Rattle.paper.specs.Saps.{is_sap, is_type, grant_of, as_bind_allows};

use crate::exclusions::none_excludes;
use paper::{MOST_OPEN, Stream};

// A SAP: a number under 256, and no exclusion holds.
pub fn is_sap(n: u32) -> bool
    ensures { result ≡ is_sap n }
{
    n < 256 && none_excludes(n)
}

// An Ethernet type: any other number, and no exclusion holds.
pub fn is_type(n: u32) -> bool
    ensures { result ≡ is_type n }
{
    256 <= n && none_excludes(n)
}

pub fn is_sap_or_type(n: u32) -> bool
    ensures { result ≡ either (is_sap n) (is_type n) }
{
    none_excludes(n)
}

// The smaller of the count asked and the most that a stream can hold; in mode 2 none.
pub fn grant_of(mode: u16, most: u32) -> u8
    ensures { result ≡ grant_of mode most }
{
    if mode == 2 {
        return 0;
    }
    if most < MOST_OPEN as u32 {
        return most as u8;
    }
    MOST_OPEN as u8
}

// Mode 1 has a SAP, mode 2 a SAP or a type and nothing granted.
pub fn as_bind_allows(s: Stream) -> bool
    ensures { result ≡ as_bind_allows s }
{
    let sap = s.sap as u32;
    if s.mode == 1 {
        return is_sap(sap) && s.granted <= MOST_OPEN as u8;
    }
    if s.mode != 2 {
        return false;
    }
    is_sap_or_type(sap) && s.granted == 0
}
