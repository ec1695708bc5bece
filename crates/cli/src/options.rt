//! The options in a command line.

ghost use Rattle.std.specs.Prelude.{◌≡◌, ◌↔◌, Some};
ghost use Rattle.cli.specs.Options.{none_given, IsWith};
ghost use Rattle.cli.specs.declared.options.Options.{Options};

use crate::option::CommandOption;
use cli_numbers::list::Numbers;
use pass_list::list::PassList;
use rv64_instr::reg::Registers;
use rv64_instr::symbol::SymbolAddresses;

/// The options in a command line, each with its value.
#[derive(Debug, Drop)]
pub struct Options {
    /// The passes that run.
    pub passes: Option<PassList>,
    /// The registers that may be spilled.
    pub reserve: Option<Registers>,
    /// The arguments of the function that is run.
    pub arguments: Option<Numbers>,
    /// The return values of the functions that it calls.
    pub answers: Option<Numbers>,
    /// Whether the section `.debug_frame` is asked for.
    pub frame: bool,
    /// Whether the entries of inlined functions are asked for.
    pub inline: bool,
    /// Whether functions are read in the linked language.
    pub linked: bool,
    /// Whether an object is one that a linker places.
    pub linkable: bool,
    /// Whether its functions may be called with floating-point numbers in registers.
    pub float_abi: bool,
    /// The addresses of symbols.
    pub symbols: Option<SymbolAddresses>,
}

impl Options {
    /// No option.
    pub fn none() -> Options
        ensures { result ≡ none_given }
    {
        Options {
            passes: None,
            reserve: None,
            arguments: None,
            answers: None,
            frame: false,
            inline: false,
            linked: false,
            linkable: false,
            float_abi: false,
            symbols: None,
        }
    }

    /// The options with one more; `None` if that one is among them already.
    pub fn with(mut self, option: CommandOption) -> Option<Options>
        ensures { (next : Options) → (result ≡ Some next) ↔ IsWith self option next }
    {
        match option {
            CommandOption::Passes(list) => {
                if self.passes.is_some() {
                    return None;
                }
                self.passes = Some(list);
                Some(self)
            }
            CommandOption::Reserve(registers) => {
                if self.reserve.is_some() {
                    return None;
                }
                self.reserve = Some(registers);
                Some(self)
            }
            CommandOption::Arguments(values) => {
                if self.arguments.is_some() {
                    return None;
                }
                self.arguments = Some(values);
                Some(self)
            }
            CommandOption::Answers(values) => {
                if self.answers.is_some() {
                    return None;
                }
                self.answers = Some(values);
                Some(self)
            }
            CommandOption::Frame => {
                if self.frame {
                    return None;
                }
                self.frame = true;
                Some(self)
            }
            CommandOption::Inline => {
                if self.inline {
                    return None;
                }
                self.inline = true;
                Some(self)
            }
            CommandOption::Linked => {
                if self.linked {
                    return None;
                }
                self.linked = true;
                Some(self)
            }
            CommandOption::Linkable => {
                if self.linkable {
                    return None;
                }
                self.linkable = true;
                Some(self)
            }
            CommandOption::FloatAbi => {
                if self.float_abi {
                    return None;
                }
                self.float_abi = true;
                Some(self)
            }
            CommandOption::Symbols(pairs) => {
                if self.symbols.is_some() {
                    return None;
                }
                self.symbols = Some(pairs);
                Some(self)
            }
        }
    }
}
