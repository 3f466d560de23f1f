//! Names of arrays and loop variables.
ghost use Rattle.std.specs.Prelude.{◌≡◌, ◌↔◌, IfOk, nat_eq};
ghost use Rattle.std.specs.Cmp.Lexicographic.{pointwise};
ghost use Rattle.array_tree.specs.Digest.{digest_of};

use std::alloc::{AllocError, Global};
use std::marker::Model;

/// A name of the language: a letter or `_`, then letters, digits and `_`.
///
/// It has its bytes and their 64-bit FNV-1a digest.
///
/// Why: `==` compares digests first, so two different names mostly differ at once, however long their common prefix is.
/// Contracts see the bytes alone.
#[derive(Debug, Drop)]
pub struct Name {
    bytes: Vec<u8>,
    digest: u64,
}

impl Model for Name {
    ghost use Rattle.std.specs.Prelude.{◌≡◌, ℕ, List};
    ghost use Rattle.array_tree.specs.Digest.{digest_of};

    ghost Value = { List ℕ };

    ghost view = { λ name. name.bytes.items };

    ghost invariant = { λ name. name.digest ≡ digest_of name.bytes.items };
}

impl Name {
    /// A name of these bytes.
    ///
    /// # Errors
    ///
    /// `AllocError` if the allocation of the copy fails.
    ///
    /// # Memory
    ///
    /// It allocates a copy of the bytes.
    pub fn new(alloc: Global, bytes: &[u8]) -> Result<Name, AllocError>
        ensures { IfOk result (λ name. name ≡ bytes.now) }
    {
        Ok(Name {
            bytes: bytes.to_vec(alloc)?,
            digest: digest(bytes),
        })
    }

    /// The bytes of the name.
    pub fn as_bytes(&self) -> &[u8]
        ensures { result.now ≡ self.now }
    {
        self.bytes.as_slice()
    }

    /// The digest of the bytes, equal for equal names and mostly different for others.
    pub fn digest(&self) -> u64
        ensures { result ≡ digest_of self.now }
    {
        self.digest
    }

    /// Returns an equal name.
    ///
    /// # Errors
    ///
    /// `AllocError` if the allocation of the copy fails.
    ///
    /// # Memory
    ///
    /// It allocates a copy of the bytes.
    pub fn copy(&self) -> Result<Name, AllocError>
        ensures { IfOk result (λ name. name ≡ self.now) }
    {
        Ok(Name {
            bytes: self.bytes.clone()?,
            digest: self.digest,
        })
    }
}

impl PartialEq for Name {
    ghost use Rattle.std.specs.Prelude.{nat_eq};
    ghost use Rattle.std.specs.Cmp.Lexicographic.{pointwise};
    ghost use Rattle.std.specs.Cmp.{partial_equiv_from_equiv};
    ghost use Rattle.std.proofs.lemmas.Cmp.{nat_list_eq_equiv};

    ghost eq = { pointwise nat_eq };

    ghost laws = { partial_equiv_from_equiv nat_list_eq_equiv };

    fn eq(&self, other: &Name) -> bool {
        self.digest == other.digest && are_same(&self.bytes, &other.bytes)
    }
}

// Whether bytes are equal. Why: it compares all bytes, without an early end, so that the compiler vectorises it. Names whose
// digests are equal are mostly equal.
fn are_same(a: &[u8], b: &[u8]) -> bool
    ensures { result ≡ pointwise nat_eq a.now b.now }
{
    if a.len() != b.len() {
        return false;
    }
    let mut same = true;
    for place in 0..a.len() {
        same &= a[place] == b[place];
    }
    same
}

// The digest of bytes: the 64-bit FNV-1a hash.
fn digest(bytes: &[u8]) -> u64
    ensures { result ≡ digest_of bytes.now }
{
    let mut digest = 0xcbf2_9ce4_8422_2325u64;
    for byte in bytes {
        digest = (digest ^ u64::from(*byte)).wrapping_mul(0x0000_0100_0000_01b3);
    }
    digest
}
