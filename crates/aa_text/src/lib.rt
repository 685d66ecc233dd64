//! The text of AppArmor's profile files: the files by name (`Files`), their tokens (`tokens`) with those of the files that they include (`spliced`),
//! and variables with their expansions (`Variables`). All of it works on bytes in memory; profiles are read from tokens by `aa_profile`.
#![tactic(auto)]

pub use aa_text_files::{Files, FilesError, MOST_BYTES, Place, TextError, TextRefusal};
pub use aa_text_tokens::{
    CutFault, CutRefusal, Spliced, Token, TokenKind, how_a_text_is_cut, spliced, tokens,
};
pub use aa_text_variables::{
    ExpansionTable, Variables, how_texts_expand, what_a_cycle_is, what_a_text_leads_to,
};
