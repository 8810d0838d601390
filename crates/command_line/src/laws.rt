//! What words ask for. Each function does nothing: its contract is the law.
ghost use Rattle.command_line.specs.Requests.{CommandIsSecond, OneTaskIsAsked};
ghost use Rattle.command_line.specs.UsualWords.{OptionWordsAreRead, PlainWordsAreRead};

/// What words ask for is one: the same command, and the same files, numbers and flags.
pub fn one_task_is_asked()
    ensures { OneTaskIsAsked }
{}

/// Where words ask for something, the second of them is the command.
pub fn command_is_second()
    ensures { CommandIsSecond }
{}

/// In their usual order the words of a command ask for it, with the files' names and the options
/// that they look like: `--json`, `--progress`, `--out`, `--pieces`, `--lines`, `--dimacs`,
/// `--map`, `--each`, `--junit`, and the form of an explanation. Where a file isn't named twice,
/// they have no fault: where they aren't read memory ran out. By `one_task_is_asked` they ask for nothing else.
pub fn plain_words_are_read()
    ensures { PlainWordsAreRead }
{}

/// `--json` may stand before, between and after the files of `check`, and the options of `prove`
/// before and after its file; `--pieces` after the files of `check`, and the options of `explain`
/// after its program.
pub fn option_words_are_read()
    ensures { OptionWordsAreRead }
{}
