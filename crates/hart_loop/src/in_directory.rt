//! The contents of the directory's cells, as a type parameter.
ghost use Rattle.std.specs.Prelude.{◌≡◌};
ghost use Rattle.shared_sites.specs.declared.shared_site.SharedSite.{SharedSite};

use shared_sites::SharedSite;

/// A type that holds a `SharedSite`, as the directory's cells do.
///
/// Why a trait, although `SharedSite` is the only such type: the prover compares the types of all calls of `Sites` part by
/// part where they are served, and a pool and a team have many parts.
pub trait InDirectory<'p>: Drop {
    /// The site's scheduler.
    ghost held: { Self → SharedSite };

    /// Puts it in.
    fn put(shared: SharedSite<'p>) -> Self
        ensures { held result ≡ shared.entry };

    /// Shows it.
    fn shared(&self) -> &SharedSite<'p>
        ensures { result.now ≡ held self.now };
}

impl<'p> InDirectory<'p> for SharedSite<'p> {
    ghost held = { λ shared. shared };

    fn put(shared: SharedSite<'p>) -> SharedSite<'p> {
        shared
    }

    fn shared(&self) -> &SharedSite<'p> {
        self
    }
}
