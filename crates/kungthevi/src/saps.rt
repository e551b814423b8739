// What C is told of a number: whether a bind can take it, in which form, or which exclusion holds.
ghost use Rattle.std.specs.Prelude.{◌≡◌};
ghost use Rattle.paper.specs.Exclusions.{ground_number, place_number, telling_of, sap_telling};

use paper::{Exclusion, Ground, Place};

// The numbers of the C interface, which kungthevi.h names.
fn ground_number(ground: Ground) -> u8
    ensures { result ≡ ground_number ground }
{
    match ground {
        Ground::OddSap => 1,
        Ground::ReservedSap => 2,
        Ground::BetweenSapsAndTypes => 3,
        Ground::AboveTypes => 4,
    }
}

fn place_number(place: Place) -> u8
    ensures { result ≡ place_number place }
{
    match place {
        Place::Binding => 1,
        Place::ReservedSapsAndTypes => 2,
    }
}

fn telling_of(n: u32, by: Option<Exclusion>) -> u32
    ensures { result ≡ telling_of n by }
{
    match by {
        Some(x) => {
            let ground = x.grounds;
            let place = x.place;
            ground_number(ground) as u32 * 256 + place_number(place) as u32 * 65536
        }
        None => paper::sap_length(n),
    }
}

pub fn sap_telling(n: u32) -> u32
    ensures { result ≡ sap_telling n }
{
    telling_of(n, paper_rules::excluded_by(n))
}
