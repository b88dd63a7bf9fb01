//! Laws of what stands outside functions: the lines of a text, the lines that are kept, the headers of functions.

ghost use Rattle.rf_text.specs.Headed.{HeadersAgain, HeadersAreHeads, HeadsOfLines, ParamsAreShown};
ghost use Rattle.rf_text.specs.LinesOf.{LinesAgain, SoundAreLines, FormsAreOfLines, KeptAgain, KeptByText};

/// Lines written one after the other, each with a line feed after it, are read as these lines.
pub fn lines_again()
    ensures { LinesAgain }
{}

/// A line without a lexical fault has no byte that ends a line.
pub fn sound_are_lines()
    ensures { SoundAreLines }
{}

/// A line that has a form, inside a function or outside, has no byte that ends a line.
pub fn forms_are_of_lines()
    ensures { FormsAreOfLines }
{}

/// What is kept of a line outside functions, without the spaces at its end, is read as the same.
pub fn kept_lines_again()
    ensures { KeptAgain }
{}

/// All that is read of a kept line is read of what is kept of it.
pub fn kept_by_text()
    ensures { KeptByText }
{}

/// The header line of a function whose header is of the profile, and whose parameters are all shown, is read as its header, each
/// parameter by the name or number that is shown of it.
pub fn headers_again()
    ensures { HeadersAgain }
{}

/// Every header of the profile that is read from a line without a lexical fault is one that is read again as the same: its kept
/// parts, its types and its names are as the profile has them, whatever stood around them.
pub fn headers_are_heads()
    ensures { HeadersAreHeads }
{}

/// The same of the header of every line outside functions.
pub fn heads_of_lines()
    ensures { HeadsOfLines }
{}

/// Where the written names of a function's values are names of locals, each of its parameters is shown, by its name or its number.
pub fn params_are_shown()
    ensures { ParamsAreShown }
{}
