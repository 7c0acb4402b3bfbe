// What the server tells of its files.
ghost use Rattle.std.specs.Prelude.{◌≡◌, map, option_map, IfOk};
ghost use Rattle.std.specs.Option.{option_copied};
ghost use Rattle.server_rules.specs.Files.{file_at};
ghost use Rattle.server_state.specs.Tables.{AreEntries, files_in};

use osd_lists::{Memory, Numbers};
use server_rules::Kept;
use server_state::Files;
use std::alloc::Global;

/// What is kept of the file of that number.
pub fn kept_of(files: &Files, number: u32) -> Option<&Kept>
    requires { AreEntries files.now.entries }
    ensures { option_copied result ≡ option_map (λ f. f.kept) (file_at (files_in files.now.entries) number) }
{
    match files.get(&number) {
        Some(file) => Some(&file.kept),
        None => None,
    }
}

/// The numbers of the files, in order.
pub fn numbers_of(alloc: Global, files: &Files) -> Result<Numbers, Memory>
    ensures { IfOk result (λ numbers. numbers ≡ map (λ f. f.kept.number) (files_in files.now.entries)) }
{
    let mut numbers = Numbers::new(alloc);
    for (_, file) in files.iter() {
        numbers.push(file.kept.number)?;
    }
    Ok(numbers)
}
