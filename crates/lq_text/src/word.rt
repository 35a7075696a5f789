//! The words of the language, which are no names.

ghost use Rattle.std.specs.Prelude.{◌≡◌, map};
ghost use Rattle.lq_text.specs.Word.{is_among, keywords, annotation_words, unused_words, is_reserved};

const KEYWORDS: [&[u8]; 13] = [
    b"int", b"struct", b"void", b"if", b"else", b"while", b"for", b"return", b"print", b"calloc",
    b"sizeof", b"cobegin", b"foreach",
];

const ANNOTATION_WORDS: [&[u8]; 2] = [b"commutative", b"atomic"];

const UNUSED_WORDS: [&[u8]; 20] = [
    b"break",
    b"continue",
    b"switch",
    b"case",
    b"default",
    b"goto",
    b"do",
    b"union",
    b"enum",
    b"typedef",
    b"char",
    b"short",
    b"long",
    b"unsigned",
    b"signed",
    b"float",
    b"double",
    b"const",
    b"static",
    b"extern",
];

/// Whether a text is one of these.
pub fn is_among(texts: &[&[u8]], text: &[u8]) -> bool
    ensures { result ≡ is_among (map (λ each. each.now) texts.now) text.now }
{
    texts.contains(&text)
}

/// Whether a word is one that the grammar uses (docs/LANGUAGE.md, "Tokens").
pub fn is_keyword(word: &[u8]) -> bool
    ensures { result ≡ is_among keywords word.now }
{
    is_among(&KEYWORDS, word)
}

/// Whether a word is one of an annotation, which is refused (docs/LANGUAGE.md, "Tokens").
pub fn is_annotation_word(word: &[u8]) -> bool
    ensures { result ≡ is_among annotation_words word.now }
{
    is_among(&ANNOTATION_WORDS, word)
}

/// Whether a word is one that no rule uses, though C does (docs/LANGUAGE.md, "Tokens").
pub fn is_unused_word(word: &[u8]) -> bool
    ensures { result ≡ is_among unused_words word.now }
{
    is_among(&UNUSED_WORDS, word)
}

// Whether a word is of one of the three lists.
pub(crate) fn is_reserved(word: &[u8]) -> bool
    ensures { result ≡ is_reserved word.now }
{
    is_keyword(word) || is_annotation_word(word) || is_unused_word(word)
}
