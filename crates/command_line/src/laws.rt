//! What is proved of the command line as a whole, each law the contract of a function with an empty body.

ghost use Rattle.std.specs.Prelude.{◌≡◌, List, Some, true};
ghost use Rattle.clap.specs.Simple.{App, HasMatchesOf, subcommand_rows_of};
ghost use Rattle.clap.specs.Takes.{takes};
ghost use Rattle.clap.specs.Walk.{Text};
ghost use Rattle.clap.specs.declared.parser.matches.ArgMatches.{ArgMatches};
ghost use Rattle.store_model.specs.Words.{Request, request_of};
ghost use Rattle.command_line.specs.Line.{HoldsLine, IsLine};

/// `clap` takes each line that asks for something, and its matches have just that subcommand and those values. So where
/// `clap` refuses a line, it asks for nothing.
pub fn lines_are_taken()
    ensures taken { (app : App) (line : List Text) (request : Request) → IsLine app
        → request_of line ≡ Some request
        → takes app line ≡ true }
    ensures held { (app : App) (line : List Text) (request : Request) → IsLine app
        → request_of line ≡ Some request
        → (matches : ArgMatches) → HasMatchesOf app line matches
        → HoldsLine line (subcommand_rows_of matches) }
{}
