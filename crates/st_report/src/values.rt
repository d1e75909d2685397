ghost use Rattle.std.specs.Prelude.{map, OnOk};
ghost use Rattle.serde_json.specs.Data.{string};
ghost use Rattle.st_json.specs.Adds.{AddsData, AddsItems};
ghost use Rattle.st_report.specs.Values.{count_or_null, texts};

use json::Writer;
use st_json::{close_list, open_list, put_count, put_null, put_text};
use st_units::{DevPath, NoMemory};

fn put_each_path(out: &mut Writer, paths: &[DevPath]) -> Result<(), NoMemory>
    ensures { OnOk result (AddsItems out.old out.new (map string paths.now)) }
{
    for path in paths {
        put_text(out, path.as_str())?;
    }
    Ok(())
}

/// The paths as a list of strings.
#[tactic(auto, unfolding(crate::specs::Values::texts))]
pub fn put_paths(out: &mut Writer, paths: &[DevPath]) -> Result<(), NoMemory>
    ensures { OnOk result (AddsData out.old out.new (texts paths.now)) }
{
    open_list(out)?;
    put_each_path(out, paths)?;
    close_list(out)?;
    Ok(())
}

/// The number, or null where there is none.
#[tactic(auto, unfolding(crate::specs::Values::count_or_null))]
pub fn put_count_or_null(out: &mut Writer, count: Option<u64>) -> Result<(), NoMemory>
    ensures { OnOk result (AddsData out.old out.new (count_or_null count)) }
{
    match count {
        Some(count) => put_count(out, count),
        None => put_null(out),
    }
}
