//! Tokens and their places.
ghost use Rattle.std.specs.Prelude.{◌≡◌, ◌+◌, ◌<◌, ◌^◌, ◌∷◌, [], IfSome, IfNone, length};

use crate::source::TokenSource;

/// Tokens from a source, each with its place, counted from 0.
#[derive(Drop)]
pub struct Numbered<S> {
    pub source: S,
    /// The place of the next token.
    pub place: usize,
}

impl<S: TokenSource> Numbered<S> {
    /// All tokens of a source.
    pub fn of(source: S) -> Numbered<S>
        ensures source { result.source ≡ source }
        ensures first { result.place ≡ 0 }
    {
        Numbered { source, place: 0 }
    }

    /// The next token and its place, or None where no token is left.
    pub fn take(&mut self) -> Option<(S::Token, usize)>
        requires few { self.old.place + length (S.left self.old.source) < 2 ^ 64 }
        ensures token { IfSome result (λ r. S.left self.old.source ≡ r.0 ∷ S.left self.new.source) }
        ensures place { IfSome result (λ r. r.1 ≡ self.old.place) }
        ensures next { IfSome result (λ _. self.new.place ≡ self.old.place + 1) }
        ensures last { IfNone result (self.new.place ≡ self.old.place) }
        ensures end { IfNone result ((S.left self.old.source ≡ []) × (S.left self.new.source ≡ [])) }
        ensures behind { S.behind self.new.source ≡ S.behind self.old.source }
    {
        let token = self.source.next()?;
        let place = self.place;
        self.place = place + 1;
        Some((token, place))
    }

    /// Takes the tokens that are left.
    pub fn read_on(&mut self)
        requires few { self.old.place + length (S.left self.old.source) < 2 ^ 64 }
        ensures place { self.new.place ≡ self.old.place + length (S.left self.old.source) }
        ensures left { S.left self.new.source ≡ [] }
        ensures behind { S.behind self.new.source ≡ S.behind self.old.source }
    {
        while self.take().is_some() {}
    }
}
