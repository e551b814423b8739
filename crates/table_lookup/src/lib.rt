// What is asked of the PPAs and of the other streams.
#![tactic(auto)]

ghost use Rattle.std.specs.Prelude.{◌<◌, ◌≡◌, length, suc, eqb, get_or, position};
ghost use Rattle.ledger.specs.Place.{PlaceOf};
ghost use Rattle.ledger.specs.Choice.{either};
ghost use Rattle.octets.specs.Runs.{same_bytes};
ghost use Rattle.paper.specs.Base.{stream_total, stream, no_ppa, knows, mac_of};
ghost use Rattle.paper.specs.Saps.{listens, listener, is_listened_for};
ghost use Rattle.paper.specs.Sight.{carrier_of};
ghost use Rattle.paper.specs.declared.Ppa.{Ppa};
ghost use Rattle.table_image.specs.LentTable.{table_in};

use paper::{Carrier, MAC_SIZE, PpaNumber, STREAM_TOTAL, Token};
use table_image::{LentTable, MAC_OFFSET, PLACE_SIZE, PLACES_OFFSET};

// The PPA at a place has that number.
fn is_ppa(table: LentTable, p: PpaNumber, k: usize) -> bool
    requires { k < length (table_in table).ppas }
    ensures { result ≡ eqb (get_or (table_in table.entry).ppas k no_ppa).number.0 p.0 }
{
    let at = k * PLACE_SIZE + PLACES_OFFSET;
    octets::number_inside::<u32>(&table.image[at..at + PLACE_SIZE], 0) == p.0
}

// The place of the PPA with a number.
fn ppa_place(table: LentTable, p: PpaNumber) -> Option<usize>
    ensures { result ≡ position (λ (q : Ppa). eqb q.number.0 p.0) (table_in table.entry).ppas }
{
    (0..table.ppa_total() as usize).find(|&k| is_ppa(table, p, k))
}

pub fn knows(table: LentTable, p: PpaNumber) -> bool
    ensures { result ≡ knows (table_in table.entry) p }
{
    ppa_place(table, p).is_some()
}

// The MAC of the PPA at a place.
fn mac_at_place(table: LentTable, k: usize) -> [u8; MAC_SIZE]
    requires { k < length (table_in table).ppas }
    ensures { result ≡ (get_or (table_in table.entry).ppas k no_ppa).mac }
{
    let at = k * PLACE_SIZE + PLACES_OFFSET;
    let place = &table.image[at..at + PLACE_SIZE];
    let mut mac = [0u8; MAC_SIZE];
    octets::put_bytes(&mut mac, 0, &place[MAC_OFFSET..PLACE_SIZE]);
    mac
}

// The MAC of the PPA with a number, zeros where none has it.
pub fn mac_of(table: LentTable, p: PpaNumber) -> [u8; MAC_SIZE]
    ensures { result ≡ mac_of (table_in table.entry) p }
{
    match ppa_place(table, p) {
        Some(k) => mac_at_place(table, k),
        None => [0; MAC_SIZE],
    }
}

// The called MAC is that of the PPA.
pub fn has_mac(table: LentTable, p: PpaNumber, called: &[u8]) -> bool
    ensures { result ≡ same_bytes called.now (mac_of (table_in table.entry) p) }
{
    octets::same_bytes(called, &mac_of(table, p))
}

// A stream that was granted over 0 listens, for its PPA and SAP. The SAP is asked first: it is another for most.
pub fn listens_at(table: LentTable, p: PpaNumber, sap: u32, i: usize) -> bool
    requires { i < stream_total }
    ensures { result ≡ listens p sap (stream (table_in table.entry) i) }
{
    table.sap_at(i) as u32 == sap && 0 < table.granted_at(i) && table.attached_at(i).0 == p.0
}

// The stream that listens for a PPA and SAP.
pub fn listener(table: LentTable, p: PpaNumber, sap: u32) -> Option<usize>
    ensures { PlaceOf stream_total (listener (table_in table.entry) p sap) result }
{
    (0..STREAM_TOTAL).find(|&i| listens_at(table, p, sap, i))
}

pub fn is_listened_for(table: LentTable, p: PpaNumber, sap: u32) -> bool
    ensures { result ≡ is_listened_for (table_in table.entry) p sap }
{
    listener(table, p, sap).is_some()
}

// Token 0 or one's own means this stream.
fn means_itself(i: u8, k: Token) -> bool
    ensures { result ≡ either (eqb k.0 0) (eqb k.0 (suc i)) }
{
    k.0 == 0 || k.0 == u32::from(i) + 1
}

// What a token names: this stream, another that is open, or none.
pub fn carrier_of(table: LentTable, i: u8, k: Token) -> Carrier
    ensures { result ≡ carrier_of (table_in table.entry) i k }
{
    if means_itself(i, k) {
        return Carrier::Itself;
    }
    let j = k.0 as usize - 1;
    if table.is_open(j) {
        return Carrier::Other(j as u8, table.load_stream(j));
    }
    Carrier::None
}
