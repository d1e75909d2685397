ghost use Rattle.std.specs.Prelude.{◌≡◌, ◌+◌, ◌*◌, ◌%◌, ◌^◌, OnOk};
ghost use Rattle.std.specs.Int.{to_be_bytes, w128};
ghost use Rattle.serde_json.specs.Data.{string};
ghost use Rattle.st_json.specs.Adds.{AddsData};
ghost use Rattle.st_report.specs.Uuids.{uuid_of, uuid_text};

use json::Writer;
use st_json::put_text;
use st_model::Identity;
use st_units::NoMemory;
use uuid::Uuid;

/// The low half of a pool's UUID: its kind byte, 1, and no serial.
const POOL_KIND: u64 = 0x0100_0000_0000_0000;

/// The low half of a filesystem's UUID: its kind byte, 2, with room for a serial below it.
const FILESYSTEM_KIND: u64 = 0x0200_0000_0000_0000;

/// How many serials fit below a kind byte. A filesystem's serial is far below that.
const SERIALS: u64 = 0x0100_0000_0000_0000;

fn uuid_of(identity: Identity) -> Uuid
    ensures { result ≡ to_be_bytes w128 (uuid_of identity) }
{
    match identity {
        Identity::Pool(pool) => Uuid::from_u64_pair(pool.number(), POOL_KIND),
        Identity::Filesystem(pool, serial) => {
            Uuid::from_u64_pair(pool.number(), FILESYSTEM_KIND + serial % SERIALS)
        }
    }
}

/// The identity as a UUID: hyphenated, in lower case.
#[tactic(auto, unfolding(crate::specs::Uuids::uuid_text))]
pub fn put_uuid(out: &mut Writer, identity: Identity) -> Result<(), NoMemory>
    ensures { OnOk result (AddsData out.old out.new (string (uuid_text identity))) }
{
    let mut buffer = Uuid::encode_buffer();
    let id = uuid_of(identity);
    let text = id.hyphenated().encode_lower(&mut buffer);
    put_text(out, text)?;
    Ok(())
}
