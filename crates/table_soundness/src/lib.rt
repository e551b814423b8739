// Refusal 16: whether a lent image is the image of a sound table, tested where it lies.
#![tactic(auto)]

ghost use Rattle.std.specs.Prelude.{◌≡◌, ℕ, ◌<◌, ◌≤◌, length, get_or, leb};
ghost use Rattle.ledger.specs.Tally.{occ, all_of};
ghost use Rattle.paper.specs.Base.{stream_total, slot, stream, ppa_numbers};
ghost use Rattle.paper.specs.Sound.{every, unbound, open_tests, sound_slot, listeners_of, is_alone, remembers_openings, sound};
ghost use Rattle.table_image.specs.Layout.{is_state, tidy_slot, tidy_ppas, tidy, sound_image, slot_size};
ghost use Rattle.table_image.specs.Lent.{Held};
ghost use Rattle.table_image.specs.LentTable.{table_in};
ghost use Rattle.table_soundness.specs.Groups.{are_slots_tidy, is_attached_right, is_bound_right, is_count_right, open_numbers, is_single_in, are_single, is_stream_sound};
ghost use Rattle.paper.specs.Correlations.{most_numbers};

use paper::{MOST_NUMBERS, MOST_OPEN, MOST_PPAS, PpaNumber, STREAM_TOTAL, State, Stream};
use table_image::{
    COUNT_OFFSET, IMAGE_SIZE, LentTable, MEMORY_OFFSET, NUMBERS_OFFSET, PLACE_SIZE, PLACES_OFFSET,
    PPA_COUNT_OFFSET, SLOT_SIZE, SLOTS_OFFSET, STATE_OFFSET,
};

// ---- a tidy image: what is unused is zero

// A state that the paper has: the one that the byte tells has its number.
#[tactic(auto, unfolding(table_image::specs::Layout::is_state), using(crate::proofs::Slots::states_told))]
fn is_state(n: u8) -> bool
    ensures { result ≡ is_state n }
{
    State::of_number(n).number() == n
}

// The bytes of a slot: at most 8 open numbers, zeros behind them.
#[tactic(auto, unfolding(table_image::specs::Layout::tidy_slot))]
fn is_slot_tidy(c: &[u8]) -> bool
    requires { length c.now ≡ slot_size }
    ensures { result ≡ tidy_slot c.now }
{
    let count = usize::from(c[COUNT_OFFSET]);
    is_state(c[STATE_OFFSET])
        && count <= MOST_OPEN
        && octets::is_zero(&c[count * 4 + NUMBERS_OFFSET..])
}

fn are_slots_tidy(img: &[u8]) -> bool
    requires { Held img.now }
    ensures { result ≡ are_slots_tidy img.now }
{
    img[SLOTS_OFFSET..]
        .chunks_exact(SLOT_SIZE)
        .all(is_slot_tidy)
}

// At most 8 PPAs, zeros in the places behind them.
fn are_places_tidy(img: &[u8]) -> bool
    requires { Held img.now }
    ensures { result ≡ tidy_ppas img.now }
{
    let total = usize::from(img[PPA_COUNT_OFFSET]);
    total <= MOST_PPAS && octets::is_zero(&img[total * PLACE_SIZE + PLACES_OFFSET..SLOTS_OFFSET])
}

#[tactic(auto, using(crate::proofs::Slots::tidy_bytes))]
fn is_tidy(img: &[u8]) -> bool
    ensures { result ≡ tidy img.now }
{
    img.len() == IMAGE_SIZE
        && img[MEMORY_OFFSET] <= 1
        && are_places_tidy(img)
        && are_slots_tidy(img)
}

// ---- PPA numbers differ

#[tactic(auto, using(crate::proofs::Slots::ppa_number_at))]
fn ppa_number(table: LentTable, k: usize) -> u32
    requires { k < length (table_in table).ppas }
    ensures { result ≡ get_or (ppa_numbers (table_in table.entry)) k 0 }
{
    octets::number_inside::<u32>(table.image, k * PLACE_SIZE + PLACES_OFFSET)
}

// How often a number is that of a PPA.
fn ppas_with(table: LentTable, n: u32) -> u32
    ensures { result ≡ occ n (ppa_numbers (table_in table.entry)) }
{
    let total = usize::from(table.ppa_total());
    (0..total)
        .map(|k| u32::from(n == ppa_number(table, k)))
        .sum()
}

fn ppas_differ(table: LentTable) -> bool
    ensures { result ≡ all_of (λ (p : ℕ). leb (occ p (ppa_numbers (table_in table.entry))) 1) (ppa_numbers (table_in table.entry)) }
{
    let total = usize::from(table.ppa_total());
    (0..total).all(|k| ppas_with(table, ppa_number(table, k)) <= 1)
}

// ---- each stream by itself

// Attached to a PPA of the table except in state 0.
#[tactic(auto, unfolding(crate::specs::Groups::is_attached_right, paper::specs::Base::knows))]
fn is_attached_right(table: LentTable, s: Stream) -> bool
    ensures { result ≡ is_attached_right (ppa_numbers (table_in table.entry)) s }
{
    let p = s.ppa;
    if s.state.number() == 0 {
        return p.0 == 0;
    }
    table_lookup::knows(table, p)
}

fn is_unbound(s: Stream) -> bool
    ensures { result ≡ every (unbound s) }
{
    s.mode == 0 && s.sap == 0 && s.granted == 0
}

// Bound as BIND allows from state 6 on, in mode 1 above 6.
#[tactic(auto, unfolding(crate::specs::Groups::is_bound_right))]
fn is_bound_right(s: Stream) -> bool
    ensures { result ≡ is_bound_right s }
{
    if !s.state.holds_binding() {
        return is_unbound(s);
    }
    paper_rules::as_bind_allows(s) && (!s.state.is_connection() || s.mode == 1)
}

// Only state 9 has open indications, at least one and at most the granted count.
#[tactic(auto, unfolding(crate::specs::Groups::is_count_right))]
fn is_count_right(s: Stream, count: u8) -> bool
    ensures { result ≡ is_count_right s count }
{
    if s.state.number() != 9 {
        return count == 0;
    }
    0 < count && count <= s.granted
}

#[tactic(auto, using(crate::proofs::Slots::grouped))]
fn is_open_sound(table: LentTable, i: usize) -> bool
    requires { i < stream_total }
    ensures { result ≡ every (open_tests (ppa_numbers (table_in table.entry)) (slot (table_in table.entry) i)) }
{
    let s = table.load_stream(i);
    is_attached_right(table, s) && is_bound_right(s) && is_count_right(s, table.count_at(i))
}

// A closed stream holds nothing: its bytes up to the count of open numbers are zero, and so in a tidy image are the others.
#[tactic(auto, unfolding(paper::specs::Sound::sound_slot), using(crate::proofs::Slots::closed_bytes))]
fn is_slot_sound(table: LentTable, i: usize) -> bool
    requires { i < stream_total }
    ensures { result ≡ sound_slot (ppa_numbers (table_in table.entry)) (slot (table_in table.entry) i) }
{
    if table.is_open(i) {
        return is_open_sound(table, i);
    }
    let at = i * SLOT_SIZE + SLOTS_OFFSET;
    octets::is_zero(&table.image[at..at + NUMBERS_OFFSET])
}

// ---- no open number is 0 or occurs twice

// How often a number is among others: all are looked at, so that many can be at once.
fn occurs_in(numbers: &[u32], n: u32) -> u32
    requires { length numbers.now ≤ most_numbers }
    ensures { result ≡ occ n numbers.now }
{
    numbers.iter().map(|x| u32::from(n == *x)).sum()
}

#[tactic(auto, unfolding(crate::specs::Groups::is_single_in))]
fn is_single_in(numbers: &[u32], n: u32) -> bool
    requires { length numbers.now ≤ most_numbers }
    ensures { result ≡ is_single_in numbers.now n }
{
    0 < n && occurs_in(numbers, n) <= 1
}

// Each is looked for among those from it on alone.
fn are_single(numbers: &[u32]) -> bool
    requires { length numbers.now ≤ most_numbers }
    ensures { result ≡ are_single numbers.now }
{
    (0..numbers.len()).all(|k| is_single_in(&numbers[k..], numbers[k]))
}

fn are_numbers_single(table: LentTable) -> bool
    ensures { result ≡ are_single (open_numbers (table_in table.entry)) }
{
    let mut numbers = [0u32; MOST_NUMBERS];
    let total = table_numbers::open_numbers(table.image, &mut numbers);
    are_single(&numbers[..total])
}

// ---- no two streams listen for one PPA and SAP

fn listeners_for(table: LentTable, p: PpaNumber, sap: u32) -> u32
    ensures { result ≡ listeners_of (table_in table.entry) p sap }
{
    (0..STREAM_TOTAL)
        .map(|i| u32::from(table_lookup::listens_at(table, p, sap, i)))
        .sum()
}

#[tactic(auto, unfolding(paper::specs::Sound::is_alone))]
fn is_alone(table: LentTable, i: usize) -> bool
    requires { i < stream_total }
    ensures { result ≡ is_alone (table_in table.entry) (stream (table_in table.entry) i) }
{
    if table.granted_at(i) == 0 {
        return true;
    }
    let p = table.attached_at(i);
    let sap = u32::from(table.sap_at(i));
    listeners_for(table, p, sap) <= 1
}

// ---- the whole

#[tactic(auto, unfolding(crate::specs::Groups::is_stream_sound))]
fn is_stream_sound(table: LentTable, i: usize) -> bool
    requires { i < stream_total }
    ensures { result ≡ is_stream_sound (table_in table.entry) (slot (table_in table.entry) i) }
{
    is_slot_sound(table, i) && is_alone(table, i)
}

fn are_streams_sound(table: LentTable) -> bool
    ensures { result ≡ all_of (is_stream_sound (table_in table.entry)) (table_in table.entry).slots }
{
    (0..STREAM_TOTAL).all(|i| is_stream_sound(table, i))
}

// A table with an open stream remembers an opening.
#[tactic(auto, using(crate::proofs::Slots::all_closed))]
fn remembers_openings(table: LentTable) -> bool
    ensures { result ≡ remembers_openings (table_in table.entry) }
{
    table.remembers() || table_image::free_total(table.image) == STREAM_TOTAL as u32
}

#[tactic(auto, using(crate::proofs::Slots::sound_groups))]
fn is_sound(table: LentTable) -> bool
    ensures { result ≡ sound (table_in table.entry) }
{
    ppas_differ(table)
        && are_streams_sound(table)
        && are_numbers_single(table)
        && remembers_openings(table)
}

#[tactic(auto, unfolding(table_image::specs::Layout::sound_image), using(crate::proofs::Slots::tidy_is_lent))]
pub fn sound_image(img: &[u8]) -> bool
    ensures { result ≡ sound_image img.now }
{
    is_tidy(img) && is_sound(LentTable { image: img })
}
