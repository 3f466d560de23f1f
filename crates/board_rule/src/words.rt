//! The words of sites and of entries as numbers.
ghost use Rattle.std.specs.Prelude.{◌≡◌, ◌≤◌};
ghost use Rattle.transfer_table.specs.Plan.{most_sites};
ghost use Rattle.transfer_table.specs.Entry.{hart_of, count_of, site_of};
ghost use Rattle.board_rule.specs.Encodings.{spelled};

use transfer_table::Entry;

/// One hart of those that a site's word counts: by owners a hart on its way in, by guests a guest.
pub const GUEST: u64 = 65536;

// One hart, one of a count, and one site in the word of an entry.
const HART: u64 = 8;

const COUNT: u64 = 256;

const SITE: u64 = 65536;

/// The word that encodes the entry; the inverse of `entry_of`.
pub fn word_of(entry: Entry) -> u64
    ensures { result ≡ spelled entry }
{
    match entry {
        Entry::Register { hart, site } => 1 + HART * hart as u64 + SITE * site as u64,
        Entry::Request { hart, site, count } => {
            2 + HART * hart as u64 + COUNT * count as u64 + SITE * site as u64
        }
        Entry::Enter { hart, site } => 3 + HART * hart as u64 + SITE * site as u64,
        Entry::Yield { hart, site } => 4 + HART * hart as u64 + SITE * site as u64,
        Entry::Unregister { hart, site } => 5 + HART * hart as u64 + SITE * site as u64,
        Entry::Skip { hart, site } => 6 + HART * hart as u64 + SITE * site as u64,
    }
}

/// The entry that the word encodes; the inverse of `word_of`.
pub fn entry_of(word: u64) -> Entry
    requires { (e : Entry) × (hart_of e ≤ 31) × (count_of e ≤ 255) × (site_of e ≤ most_sites)
        × (word ≡ spelled e) }
    ensures { (hart_of result ≤ 31) × (count_of result ≤ 255) × (word ≡ spelled result) }
{
    let hart = (word / HART % 32) as u8;
    let count = (word / COUNT % 256) as u8;
    let site = (word / SITE) as u16;
    match word % 8 {
        1 => Entry::Register { hart, site },
        2 => Entry::Request { hart, site, count },
        3 => Entry::Enter { hart, site },
        4 => Entry::Yield { hart, site },
        5 => Entry::Unregister { hart, site },
        _ => Entry::Skip { hart, site },
    }
}
