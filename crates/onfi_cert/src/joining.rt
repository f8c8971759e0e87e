//! A tree from the trees of its children.
ghost use Rattle.std.specs.Prelude.{◌≡◌, ◌∷◌, length, IfOk};
ghost use Rattle.std.specs.List.{flat_map};

use crate::token::Token;
use crate::width::Width;
use std::alloc::{AllocError, Global};

/// The tokens of a node with `n` moves: its branch, and then the parts, one for each move in the order of the moves.
/// The part of a move that yields to a LUN is that token alone.
///
/// # Errors
/// Where a growth was refused.
pub fn join(alloc: Global, n: Width, parts: &[Vec<Token>]) -> Result<Vec<Token>, AllocError>
    requires { length parts.now ≡ n }
    ensures { IfOk result (λ tokens. tokens.items ≡ Token.Branch n ∷ flat_map (λ part. part.items) parts.now) }
{
    let mut tokens = Vec::new(alloc);
    tokens.push(Token::Branch(n))?;
    for part in parts {
        tokens.extend_from_slice(part)?;
    }
    Ok(tokens)
}
