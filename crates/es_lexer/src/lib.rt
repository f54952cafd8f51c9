//! The tokens of scripts: codes in, names, reserved words, punctuators, numbers and texts out.
//!
//! `specs/Elements.antt` has the lexical grammar: what white space, comments and tokens are, and
//! that the longest stands at each place; `specs/Tokens.antt` says which tokens a text has, with
//! their places and the line breaks in front of them, or at which place nothing stands. [`tokens`]
//! gives exactly the former or the latter. `law_of_tokens` says that a text
//! has one list of tokens or one such place and not both, and `law_of_spans` that each token is
//! what is spelled from its start to its end. Which reserved word or punctuator that is
//! [`reserved_word_of`] and [`punctuator_of`] tell.
#![tactic(auto)]

mod codes;
mod elements;
mod laws;
mod lexer;
mod literals;
mod numbers;
mod punctuators;
mod token_types;
mod words;

pub use crate::laws::{law_of_spans, law_of_tokens};
pub use crate::lexer::tokens;
pub use crate::punctuators::{Punctuator, punctuator_of};
pub use crate::token_types::{LexRefusal, Token, TokenKind};
pub use crate::words::{ReservedWord, reserved_word_of};
