//! A law of the words. It is a function with no code, whose contract is the law.

ghost use Rattle.zeb_words.specs.Names.{WordsNameOneCommand};

/// Words name one command at most: the same file, the same database and the same act, whoever reads them.
pub fn words_name_one_command()
    ensures { WordsNameOneCommand }
{}
