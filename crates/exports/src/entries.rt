// The catalogue for programs in other languages: its entries, and the search.
ghost use Rattle.std.specs.Prelude.{◌≡◌};
ghost use Rattle.meaning.specs.Answers.{told_entry};
ghost use Rattle.meaning.specs.Calls.{CatalogueCall};
ghost use Rattle.meaning.specs.Exports.{entry_told, EntryExported};

use meaning::{Entry, EntryRating, Refusal};

// Entry i of the catalogue, counted from 0; beyond the last 0, which is no entry.
#[unsafe(no_mangle)]
pub extern "C" fn gobashe_catalogue_entry(i: usize) -> u64
    ensures { CatalogueCall i result }
{
    rater::catalogue_entry(i)
}

// What a search tells.
fn entry_told(rating: Result<EntryRating, Refusal>) -> Entry
    ensures { result ≡ entry_told (told_entry rating) }
{
    match rating {
        Ok(EntryRating { entry, power }) => Entry {
            status: 0,
            entry,
            power,
        },
        Err(r) => Entry {
            status: r.into(),
            entry: 0,
            power: 0,
        },
    }
}

// Searches the catalogue for a binary period: the first entry with a power that annihilates it, and the least
// such power.
#[unsafe(no_mangle)]
pub extern "C" fn gobashe_find_entry(terms: &[u8], work: &mut [u8]) -> Entry
    ensures { EntryExported terms.now work.old result work.new }
{
    let rating = rater::find_entry(terms, work);
    entry_told(rating)
}
