ghost use Rattle.std.specs.Prelude.{◌≡◌, [], ◌∷◌, ◌++◌, ◌<◌, length, slice_get, IsErrOf, OnOk, OnErr, OnSome};
ghost use Rattle.std.specs.Option.{option_copied};

use crate::fault::LexFault;
use std::alloc::Global;
use std::marker::Model;

/// What a token is.
#[derive(Clone, Copy, Debug, PartialEq, Eq)]
pub enum TokenKind {
    /// A letter or one of `$ . _`, then any letters, digits and `- $ . _`.
    Word,
    /// `%`, then a word or digits.
    Local,
    /// `@`, then a word.
    Global,
    /// Digits, with a `-` before them where wanted.
    Number,
    /// Bytes between two `"`, none of them `"` or a line's end.
    Quoted,
    /// `#`, then digits.
    Group,
    /// `!`, then any letters, digits and `- $ . _`, perhaps none.
    Meta,
    /// One of `( ) { } [ ] < > , = : * + |`.
    Punct,
}

/// A token of a line: its bytes from `from` up to `to`, which is not one of them. Bytes are counted
/// from 0.
#[derive(Clone, Copy, Debug, PartialEq, Eq)]
pub struct Token {
    pub kind: TokenKind,
    pub from: u32,
    pub to: u32,
}

/// A list of tokens, which contracts see as its members in order. Only `push` takes memory.
#[derive(Debug, Drop)]
pub struct Tokens {
    members: Vec<Token>,
}

impl Model for Tokens {
    ghost use Rattle.std.specs.Prelude.{List};
    ghost use Rattle.ms_lex.specs.declared.token.Token.{Token};

    ghost Value = { List Token };

    ghost view = { λ t. t.members.items };
}

impl Tokens {
    /// The empty list. It takes no memory.
    pub fn new(alloc: Global) -> Tokens
        ensures { result ≡ [] }
    {
        Tokens {
            members: Vec::new(alloc),
        }
    }

    /// How many tokens there are.
    pub fn len(&self) -> usize
        ensures { result ≡ length self.now }
    {
        self.members.len()
    }

    /// The token at a place, counted from 0; `None` exactly where there is none.
    pub fn get(&self, at: usize) -> Option<&Token>
        ensures value { option_copied result ≡ slice_get self.now at }
        ensures within { OnSome result (at < length self.now) }
    {
        self.members.get(at)
    }

    /// The tokens in order.
    pub fn as_slice(&self) -> &[Token]
        ensures { result.now ≡ self.now }
    {
        self.members.as_slice()
    }

    /// Appends a token. The only fault is `Memory`; the list is then as before.
    pub fn push(&mut self, token: Token) -> Result<(), LexFault>
        ensures ok { OnOk result (self.new ≡ self.old ++ token ∷ []) }
        ensures err { OnErr result ((self.new ≡ self.old) × IsErrOf result LexFault.Memory) }
    {
        self.members.push(token)?;
        Ok(())
    }
}
