// The table as a lent image: see specs/ for its layout and proofs/ for its laws.
#![tactic(auto)]

ghost use Rattle.std.specs.Prelude.{not, ◌<◌, ◌≡◌, ◌+◌, ◌-◌, ◌^◌, length};
ghost use Rattle.ledger.specs.Tally.{one_if, sum_of};
ghost use Rattle.paper.specs.Base.{stream_total, Slot, fresh, slot, stream, waiting, closed, just_opened, lowest_free, with_slot, with_stream, with_counter, with_ppa, remembering};
ghost use Rattle.table_image.specs.Layout.{stream_from, mask_in, table_of, stream_bytes, image_of, slot_size};
ghost use Rattle.table_image.specs.Lent.{Lent, Held, At, LentAt, LentClosed, LentOpen, PpaPlace, Masked};

use paper::{MAC_SIZE, MOST_OPEN, MOST_PPAS, PpaNumber, STREAM_TOTAL, State, Stream};

// Sizes and offsets: of the image,
const MASK_OFFSET: usize = 0;

pub const MEMORY_OFFSET: usize = 2;

pub const PPA_COUNT_OFFSET: usize = 3;

const COUNTER_OFFSET: usize = 4;

pub const PLACES_OFFSET: usize = 8;

pub const MAC_OFFSET: usize = 4;

pub const PLACE_SIZE: usize = MAC_OFFSET + MAC_SIZE;

pub const SLOTS_OFFSET: usize = PLACES_OFFSET + MOST_PPAS * PLACE_SIZE;

// and of a slot.
pub const STATE_OFFSET: usize = 0;

const MODE_OFFSET: usize = 1;

const SAP_OFFSET: usize = 2;

const ATTACHED_OFFSET: usize = 4;

const GRANTED_OFFSET: usize = 8;

pub const COUNT_OFFSET: usize = 9;

pub const NUMBERS_OFFSET: usize = COUNT_OFFSET + 1;

pub const NUMBERS_SIZE: usize = MOST_OPEN * 4;

pub const SLOT_SIZE: usize = NUMBERS_OFFSET + NUMBERS_SIZE;

pub const IMAGE_SIZE: usize = SLOTS_OFFSET + STREAM_TOTAL * SLOT_SIZE;

// The stream in the bytes of a slot.
fn stream_from(c: &[u8]) -> Stream
    requires { length c.now ≡ slot_size }
    ensures { result ≡ stream_from c.now }
{
    let state = State::of_number(c[STATE_OFFSET]);
    let sap = octets::number_inside::<u16>(c, SAP_OFFSET);
    let ppa = PpaNumber(octets::number_inside::<u32>(c, ATTACHED_OFFSET));
    Stream {
        state: state,
        mode: c[MODE_OFFSET],
        sap: sap,
        ppa: ppa,
        granted: c[GRANTED_OFFSET],
    }
}

// ---- the table, to be read where it lies

// The PPA that a stream is attached to, in bytes as long as an image.
pub fn attached_at(img: &[u8], i: usize) -> PpaNumber
    requires { At i img.now }
    ensures { result ≡ (stream (table_of img.now) i).ppa }
{
    let at = i * SLOT_SIZE + SLOTS_OFFSET + ATTACHED_OFFSET;
    PpaNumber(octets::number_inside::<u32>(img, at))
}

// The image of a table, lent to be read.
#[derive(Clone, Copy)]
pub struct LentTable<'a> {
    pub image: &'a [u8],
    pub ghost lent: { Lent image.now },
}

impl<'a> LentTable<'a> {
    ghost use Rattle.table_image.specs.LentTable.{table_in};

    // A stream was ever opened.
    pub fn remembers(self) -> bool
        ensures { result ≡ (table_in self.entry).remembers }
    {
        self.image[MEMORY_OFFSET] == 1
    }

    pub fn ppa_total(self) -> u8
        ensures { result ≡ length (table_in self.entry).ppas }
    {
        self.image[PPA_COUNT_OFFSET]
    }

    // The counter for correlation numbers.
    pub fn counter(self) -> u32
        ensures { result ≡ (table_in self.entry).counter }
    {
        octets::number_inside::<u32>(self.image, COUNTER_OFFSET)
    }

    // Past the table's end no stream is open.
    pub fn is_open(self, i: usize) -> bool
        ensures { result ≡ (slot (table_in self.entry) i).is_open }
    {
        if i < STREAM_TOTAL {
            let m = mask_in(self.image);
            return (m >> (i as u32)) % 2 == 0;
        }
        false
    }

    // How a stream stands.
    pub fn load_stream(self, i: usize) -> Stream
        requires { i < stream_total }
        ensures { result ≡ stream (table_in self.entry) i }
    {
        let at = i * SLOT_SIZE + SLOTS_OFFSET;
        stream_from(&self.image[at..at + SLOT_SIZE])
    }

    // One thing of a stream, read where it lies.
    pub fn state_at(self, i: usize) -> State
        requires { i < stream_total }
        ensures { result ≡ (stream (table_in self.entry) i).state }
    {
        State::of_number(self.image[i * SLOT_SIZE + SLOTS_OFFSET + STATE_OFFSET])
    }

    pub fn granted_at(self, i: usize) -> u8
        requires { i < stream_total }
        ensures { result ≡ (stream (table_in self.entry) i).granted }
    {
        self.image[i * SLOT_SIZE + SLOTS_OFFSET + GRANTED_OFFSET]
    }

    pub fn attached_at(self, i: usize) -> PpaNumber
        requires { i < stream_total }
        ensures { result ≡ (stream (table_in self.entry) i).ppa }
    {
        attached_at(self.image, i)
    }

    pub fn sap_at(self, i: usize) -> u16
        requires { i < stream_total }
        ensures { result ≡ (stream (table_in self.entry) i).sap }
    {
        octets::number_inside::<u16>(self.image, i * SLOT_SIZE + SLOTS_OFFSET + SAP_OFFSET)
    }

    // How many indications of a stream are open.
    pub fn count_at(self, i: usize) -> u8
        requires { i < stream_total }
        ensures { result ≡ length (waiting (table_in self.entry) i) }
    {
        self.image[i * SLOT_SIZE + SLOTS_OFFSET + COUNT_OFFSET]
    }
}

// ---- streams

// The bytes of a stream in its slot.
pub fn stream_bytes(s: Stream) -> [u8; COUNT_OFFSET]
    ensures { result ≡ stream_bytes s }
{
    let p = s.ppa.0;
    [
        s.state.number(),
        s.mode,
        (s.sap / 256) as u8,
        (s.sap % 256) as u8,
        (p / 16777216) as u8,
        (p / 65536 % 256) as u8,
        (p / 256 % 256) as u8,
        (p % 256) as u8,
        s.granted,
    ]
}

// The stream is changed, not its open indications.
pub fn store_stream(img: &mut [u8], i: usize, s: Stream)
    requires { LentAt i img.old }
    ensures { img.new ≡ image_of (with_stream (table_of img.old) i s) }
{
    let at = i * SLOT_SIZE + SLOTS_OFFSET;
    let bytes = stream_bytes(s);
    octets::put_bytes(img, at, &bytes);
}

// ---- the mask: bit i is 1 exactly if stream i is closed

fn mask_in(img: &[u8]) -> u16
    requires { Held img.now }
    ensures { result ≡ mask_in img.now }
{
    octets::number_inside::<u16>(img, MASK_OFFSET)
}

fn mask_without(m: u16, i: usize) -> u16
    requires { Masked i m 1 }
    ensures { result ≡ m - 2 ^ i }
{
    m - (1u16 << (i as u32))
}

fn mask_with(m: u16, i: usize) -> u16
    requires { Masked i m 0 }
    ensures { result ≡ m + 2 ^ i }
{
    m + (1u16 << (i as u32))
}

// How many streams are closed.
pub fn free_total(img: &[u8]) -> u32
    requires { Lent img.now }
    ensures { result ≡ sum_of (λ (x : Slot). one_if (not x.is_open)) (table_of img.now).slots }
{
    u16::count_ones(mask_in(img))
}

// Opening takes the lowest free stream; 16 where none is free. (The paper has the mask's trailing zeros for it, which are 16 then.)
pub fn lowest_free(img: &[u8]) -> u32
    requires { Lent img.now }
    ensures { result ≡ lowest_free (table_of img.now) }
{
    u16::trailing_zeros(mask_in(img))
}

// A closed stream is zero, as one just opened is; the table remembers the opening.
pub fn open_slot(img: &mut [u8], i: usize)
    requires { LentClosed i img.old }
    ensures { img.new ≡ image_of (with_slot (remembering (table_of img.old)) i just_opened) }
{
    let m = mask_without(mask_in(img), i);
    octets::put_bytes(img, MASK_OFFSET, &[(m / 256) as u8, (m % 256) as u8, 1]);
}

pub fn close_slot(img: &mut [u8], i: usize)
    requires { LentOpen i img.old }
    ensures { img.new ≡ image_of (with_slot (table_of img.old) i closed) }
{
    let m = mask_with(mask_in(img), i);
    octets::put_number::<u16>(img, MASK_OFFSET, m);
    octets::put_bytes(img, i * SLOT_SIZE + SLOTS_OFFSET, &[0u8; SLOT_SIZE]);
}

// ---- the rest of the header

pub fn store_counter(img: &mut [u8], n: u32)
    requires { Lent img.old }
    ensures { img.new ≡ image_of (with_counter (table_of img.old) n) }
{
    octets::put_number::<u32>(img, COUNTER_OFFSET, n);
}

// A PPA behind those that are there.
pub fn store_ppa(img: &mut [u8], p: PpaNumber, mac: &[u8])
    requires { PpaPlace mac.now img.old }
    ensures { img.new ≡ image_of (with_ppa (table_of img.old) (record { number = p; mac = mac.now })) }
{
    let n = LentTable { image: img }.ppa_total();
    let at = (n as usize) * PLACE_SIZE + PLACES_OFFSET;
    octets::put_number::<u32>(img, at, p.0);
    octets::put_bytes(img, at + MAC_OFFSET, mac);
    octets::put_bytes(img, PPA_COUNT_OFFSET, &[n + 1]);
}

// A fresh table: every stream closed, no PPA, the counter 1.
pub fn make_fresh(img: &mut [u8])
    requires { Held img.old }
    ensures { img.new ≡ image_of fresh }
{
    octets::put_bytes(img, 0, &[0u8; IMAGE_SIZE]);
    octets::put_number::<u16>(img, MASK_OFFSET, 65535);
    octets::put_number::<u32>(img, COUNTER_OFFSET, 1);
}
