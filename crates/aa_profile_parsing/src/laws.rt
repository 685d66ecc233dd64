//! Properties of flags, as laws over the definitions that `read_flags` is proved to follow.

ghost use Rattle.std.specs.Prelude.{◌≡◌, ◌++◌, ℕ, false, true, IfOk, List, ◌∷◌, Some};
ghost use Rattle.std.specs.List.{list_all};
ghost use Rattle.aa_bytes.specs.Bytes.{is_blank, opening_parenthesis};
ghost use Rattle.aa_bytes.specs.Texts.{is_empty};
ghost use Rattle.aa_text_tokens.specs.Splicing.{Placed};
ghost use Rattle.aa_text_tokens.specs.declared.cut.TokenKind.TheVariants.{OpenBrace};
ghost use Rattle.aa_profile_parsing.specs.declared.language.Language.{Language};
ghost use Rattle.aa_profile_parsing.specs.declared.language.Language.TheVariants.{Three};
ghost use Rattle.aa_profile_parsing.specs.FlagRefusals.{FaultsAreTheFirst};
ghost use Rattle.aa_profile_parsing.specs.Flags.{flags, separates};
ghost use Rattle.aa_profile_parsing.specs.FlagText.{IsReadAs, flags_of, has_word, has_words, is_flag_token, said, spaced, with_keyword, words_of};
ghost use Rattle.aa_profile_parsing.specs.IdleFlags.{idle_words, list_text};
ghost use Rattle.aa_profile_parsing.specs.KeptFlags.{stands};
ghost use Rattle.aa_profile_parsing.specs.NarrowFlags.{HasNarrowMode};
ghost use Rattle.aa_profile_parsing.specs.declared.flags.Flags.{Flags};

/// FLAGS are read as the text of their Words and Commas says: nothing, or a list in parentheses, before which `flags =` may come, with or without
/// blanks, and changes nothing. Any blanks and commas may be between two words of a list. Lists with the same words say the same, in whatever order
/// and however often they have them.
pub fn what_flags_say()
    ensures flags_are_read_as_their_text { (language : Language) (tokens : List Placed) (brace : Placed) (rest : List Placed)
        → list_all is_flag_token tokens ≡ true
        → brace.token.kind ≡ OpenBrace
        → IsReadAs (said language (spaced tokens)) brace rest (flags language (tokens ++ brace ∷ rest)) }
    ensures keyword_changes_nothing { (language : Language) (blanks more list : List ℕ)
        → list_all is_blank blanks ≡ true
        → list_all is_blank more ≡ true
        → said language (with_keyword blanks more (opening_parenthesis ∷ list)) ≡ said language (opening_parenthesis ∷ list) }
    ensures any_separators_stand_between_words { (list separators more : List ℕ)
        → list_all separates separators ≡ true
        → is_empty separators ≡ false
        → words_of (list ++ (separators ++ more)) ≡ words_of list ++ words_of more }
    ensures same_words_say_the_same { (language : Language) (words others : List (List ℕ))
        → has_words words others ≡ true
        → has_words others words ≡ true
        → flags_of language words ≡ flags_of language others }
{}

/// FLAGS are refused at the first token with which nothing that could follow would be accepted: the tokens before it can be continued to FLAGS that
/// are read, and with it the refusal is the same whatever follows. Tokens run out only where they can be continued so.
pub fn where_flags_are_refused()
    ensures { FaultsAreTheFirst }
{}

/// No flag is lost: where FLAGS say something, their list has exactly the words that they say, of mode flags and `audit`, and those that are kept.
/// So FLAGS that say the same, and of which the same words are kept, have the same words.
pub fn which_flags_are_kept()
    ensures { (language : Language) (text : List ℕ) (flags : Flags) (word : List ℕ)
        → said language text ≡ Some flags
        → has_word word (words_of (list_text text)) ≡ stands flags (idle_words language (list_text text)) word }
{}

/// No FLAGS that are read by language 3 have the mode flag `unconfined` or `default_allow`.
pub fn which_mode_flags_language_3_has()
    ensures { (tokens : List Placed) → IfOk (flags Three tokens) (λ read. HasNarrowMode read.0.0) }
{}
