//! How a valid script is written: its canonical text, and that this text means it.
//!
//! `specs/CanonicalText.antt` is the grammar of scripts, read without knowing how words are cut.
//! `canonical_text_law` says that the reader takes this text for the script. Laws cost nothing.
#![tactic(auto)]

mod laws;

pub use laws::canonical_text_law;
