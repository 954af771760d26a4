//! Laws, each proved for all words and requests.

ghost use Rattle.mcf_words.specs.Laws.{
  RequestsAreSpelled,
  RequestsHaveWords,
  SpelledAreRead,
  UsageIsNoSpelling,
  WordsAreRead,
  WordsSpellOne,
};

/// The words ask for just the request that they spell.
pub fn requests_are_spelled()
    ensures spelled { RequestsAreSpelled }
    ensures read { SpelledAreRead }
{}

/// The words are usage exactly where they spell no request.
pub fn usage_is_no_spelling()
    ensures { UsageIsNoSpelling }
{}

/// No words spell two requests.
pub fn words_spell_one()
    ensures { WordsSpellOne }
{}

/// Each request that there may be has words, which spell it and are read as it.
pub fn requests_have_words()
    ensures spelled { RequestsHaveWords }
    ensures read { WordsAreRead }
{}
