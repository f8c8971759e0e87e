//! The tokens of a certificate, as a walk writes them.

ghost use Rattle.std.specs.Prelude.{◌≡◌, ◌∷◌, ◌++◌, [], OnOk};

use onfi_known_check::Token;
use std::alloc::{AllocError, Global};

/// The tokens of the tree that shows that nothing ends before a finish, in ns.
#[derive(Drop)]
pub struct Cert {
    pub finish: u64,
    pub tokens: Vec<Token>,
}

impl Cert {
    /// No token yet.
    pub fn new(alloc: Global, finish: u64) -> Cert
        ensures finish { result.finish ≡ finish }
        ensures tokens { result.tokens.items ≡ [] }
    {
        let tokens = Vec::new(alloc);
        Cert { finish, tokens }
    }

    /// Writes a token, where the best schedule still ends at the finish; once it ends sooner, tokens are worth nothing.
    ///
    /// # Errors
    /// Only where memory was refused.
    pub fn write(&mut self, token: Token, best: u64) -> Result<(), AllocError>
        ensures finish { self.new.finish ≡ self.old.finish }
        ensures tokens { OnOk result (best ≡ self.old.finish → self.new.tokens.items ≡ self.old.tokens.items ++ token ∷ []) }
    {
        if best < self.finish {
            self.tokens.clear();
            return Ok(());
        }
        self.tokens.push(token)?;
        Ok(())
    }
}
