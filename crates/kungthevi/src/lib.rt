// The C face: numbers and byte slices only, and nothing asked of the caller. A slice is a pointer and a length.
#![tactic(auto)]

mod saps;

ghost use Rattle.std.specs.Prelude.{◌≡◌};
ghost use Rattle.paper.specs.Exclusions.{sap_telling};
ghost use Rattle.paper.specs.RecordsIn.{record_size};
ghost use Rattle.call_outcomes.specs.Leaving.{left, call_of};
ghost use Rattle.call_outcomes.specs.Fresh.{made, fresh_of};

use call_outcomes::Refusal;
use table_image::IMAGE_SIZE;

// Makes a fresh table: 0, or 16 where the length is wrong, and then the bytes stay as they stood.
#[unsafe(no_mangle)]
pub extern "C" fn kungthevi_fresh(table: &mut [u8]) -> u32
    ensures { made result table.new ≡ fresh_of table.old }
{
    if table.len() != IMAGE_SIZE {
        return u32::from(Refusal::NotSound.number());
    }
    table_image::make_fresh(table);
    0
}

// The call: reads the one record at the start of the lent bytes, a datagram with its M, changes the table, writes its records into the room.
// Its number: bytes written in bits 0 to 15, the refusal number in 16 to 23, the token of the stream opened in 24 to 31.
#[unsafe(no_mangle)]
pub extern "C" fn kungthevi_call(table: &mut [u8], bytes: &[u8], room: &mut [u8]) -> u32
    ensures { left result table.new room.new ≡ call_of table.old bytes.now room.old }
{
    call_outcomes::call_number(call_engine::call(table, bytes, room))
}

// How far reading goes on behind the record at the start of the bytes: its size, of a datagram with its M, or 0 where reading
// ends there.
#[unsafe(no_mangle)]
pub extern "C" fn kungthevi_record_size(bytes: &[u8]) -> u32
    ensures { result ≡ record_size bytes.now }
{
    wire_records::record_size(bytes) as u32
}

// Whether a bind can take a number of a SAP field: in bits 0 to 7 how many bytes it takes in an address, 0 if it is excluded; in 8 to
// 15 the exclusion that holds, in 16 to 23 the manual's place that makes it.
#[unsafe(no_mangle)]
pub extern "C" fn kungthevi_sap(number: u32) -> u32
    ensures { result ≡ sap_telling number }
{
    saps::sap_telling(number)
}
