//! What contracts know of a seat's entries. These types are ghost: no value of them exists at run time. A clause reads an array
//! as a list, of any length.
use transfer_table::Entry;

/// A journal index that was reserved, and the entry that is still to be written there.
pub struct Drawn {
    pub place: u64,
    pub entry: Entry,
}

/// A hart whose seat was joined into hart 0's, the entries that it made, and their indices.
pub struct Ended {
    pub hart: u8,
    pub mine: [Entry; 0],
    pub places: [u64; 0],
}
