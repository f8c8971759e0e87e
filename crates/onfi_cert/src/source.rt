//! Where a checker takes its tokens from.

/// A list of tokens that is given from the front on, whatever holds it.
///
/// A checker that walks over a `TokenSource` reads a list by [`crate::TokenList`] and a text by [`crate::Tokens`], with
/// one body and one proof. Contracts see the tokens that are left, and what follows them: the fault of a text,
/// its bytes, or nothing.
pub trait TokenSource {
    ghost use Rattle.std.specs.Prelude.{◌≡◌, List, [], ◌∷◌, IfSome, IfNone};

    /// The kind of tokens.
    type Token: Copy;

    ghost Behind: { Type 0 };

    ghost left: { Self → List Self.Token };

    ghost behind: { Self → Self.Behind };

    /// The next token, which is then no more left, or None where none is left.
    fn next(&mut self) -> Option<Self::Token>
        ensures token { IfSome result (λ token. left self.old ≡ token ∷ left self.new) }
        ensures end { IfNone result ((left self.old ≡ []) × (left self.new ≡ [])) }
        ensures behind { behind self.new ≡ behind self.old };
}
