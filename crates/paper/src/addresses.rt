// The two forms of an address, and where it stands in lent bytes.
ghost use Rattle.std.specs.Prelude.{◌≡◌, ◌<◌, ◌≤◌};
ghost use Rattle.octets.specs.Runs.{farthest};
ghost use Rattle.paper.specs.Base.{length_of, form_in, form_of};
ghost use Rattle.paper.specs.RecordsIn.{sap_at};
ghost use Rattle.paper.specs.Replies.{sap_length};

use crate::{ADDRESS_SIZE, Form, MOST_ADDRESS};

// (Methods, since a form comes of two numbers: `From` would not say which.)
impl Form {
    // How many bytes an address of this form has.
    pub fn length(self) -> usize
        ensures { result ≡ length_of self }
    {
        match self {
            Form::WithSap => ADDRESS_SIZE,
            Form::WithType => MOST_ADDRESS,
        }
    }

    // The form of an address of n bytes, where n is 7 or 8.
    pub fn of_length(n: u32) -> Form
        ensures { result ≡ form_in n }
    {
        if n == MOST_ADDRESS as u32 {
            return Form::WithType;
        }
        Form::WithSap
    }

    // The form of an address that ends in this number.
    pub fn of_sap(sap: u16) -> Form
        ensures { result ≡ form_of sap }
    {
        if sap < 256 {
            return Form::WithSap;
        }
        Form::WithType
    }
}

// How many bytes a SAP or type takes in an address: one of a SAP, two of a type.
pub fn sap_length(n: u32) -> u32
    ensures is { result ≡ sap_length n }
    ensures some { 0 < result }
    ensures few { result ≤ 2 }
{
    if n < 256 {
        return 1;
    }
    2
}

// The SAP or type of an address, at the place where its MAC ends.
pub fn sap_at(r: &[u8], form: Form, at: usize) -> u16
    requires { at ≤ farthest }
    ensures { result ≡ sap_at r.now form at }
{
    match form {
        Form::WithSap => octets::byte_at(r, at) as u16,
        Form::WithType => octets::number_at::<u16>(r, at),
    }
}
