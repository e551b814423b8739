// The SAP test: the numbers that no bind can take, each exclusion beside the manual's place that makes it.
ghost use Rattle.std.specs.Prelude.{◌≡◌};
ghost use Rattle.paper.specs.Exclusions.{exclusions, is_of, excludes, excluded_in, excluded_by, is_none};

use paper::{Exclusion, Ground, Place, Which};

const EXCLUSION_TOTAL: usize = 4;

const EXCLUSIONS: [Exclusion; EXCLUSION_TOTAL] = [
    // 'Binding': SAPs are even numbers from 0 to 255;
    Exclusion {
        grounds: Ground::OddSap,
        which: Which::Odd,
        first: 0,
        last: 0xff,
        place: Place::Binding,
    },
    // reserved ones are not, and of these RFC 1010 has one.
    Exclusion {
        grounds: Ground::ReservedSap,
        which: Which::All,
        first: 0x06,
        last: 0x06,
        place: Place::ReservedSapsAndTypes,
    },
    // 'Binding': types are numbers from 0x600
    Exclusion {
        grounds: Ground::BetweenSapsAndTypes,
        which: Which::All,
        first: 0x100,
        last: 0x5ff,
        place: Place::Binding,
    },
    // to 0xffff; of reserved ones RFC 1010 has none.
    Exclusion {
        grounds: Ground::AboveTypes,
        which: Which::All,
        first: 0x10000,
        last: 0xffffffff,
        place: Place::Binding,
    },
];

fn exclusions() -> [Exclusion; EXCLUSION_TOTAL]
    ensures { result ≡ exclusions }
{
    EXCLUSIONS
}

fn is_of(which: Which, n: u32) -> bool
    ensures { result ≡ is_of which n }
{
    match which {
        Which::Odd => n % 2 == 1,
        Which::All => true,
    }
}

#[tactic(auto, unfolding(paper::specs::Exclusions::excludes))]
fn excludes(x: Exclusion, n: u32) -> bool
    ensures { result ≡ excludes x n }
{
    x.first <= n && n <= x.last && is_of(x.which, n)
}

// The first that holds.
fn excluded_in(l: [Exclusion; EXCLUSION_TOTAL], n: u32) -> Option<Exclusion>
    ensures { result ≡ excluded_in l n }
{
    for x in &l {
        if excludes(*x, n) {
            return Some(*x);
        }
    }
    None
}

// Which exclusion holds of a number.
pub fn excluded_by(n: u32) -> Option<Exclusion>
    ensures { result ≡ excluded_by n }
{
    excluded_in(exclusions(), n)
}

// The test of a bind is that none does.
pub fn none_excludes(n: u32) -> bool
    ensures { result ≡ is_none (excluded_by n) }
{
    excluded_by(n).is_none()
}
