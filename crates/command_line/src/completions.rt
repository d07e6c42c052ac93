//! What a shell completes of a command line, from the table of commands.

use crate::table::{Argument, CommandRow, commands};
use std::io;
use std::io::Write;

const BASH_HEAD: &str =
    "_mrep() {\n    local words=\n    case $COMP_CWORD:${COMP_WORDS[1]}:$3 in\n        1:*|*:help:*) words='";

const BASH_TAIL: &str =
    "    esac\n    COMPREPLY=($(compgen -W \"$words\" -- \"$2\"))\n}\ncomplete -o default -F _mrep mrep\n";

const ZSH_HEAD: &str = "#compdef mrep\n_mrep() {\n    local -a commands=(\n";

const ZSH_MIDDLE: &str =
    "        'help:Print help'\n    )\n    if (( CURRENT == 2 )); then\n        _describe command commands\n        return\n    fi\n    shift words\n    (( CURRENT-- ))\n    case $words[1] in\n        help) _describe command commands ;;\n";

const ZSH_TAIL: &str =
    "    esac\n}\nif [ \"$funcstack[1]\" = _mrep ]; then _mrep \"$@\"; else compdef _mrep mrep; fi\n";

const FISH_HEAD: &str =
    "complete -c mrep -l help -d 'Print help'\ncomplete -c mrep -n __fish_use_subcommand -f -a help -d 'Print help'\n";

/// Prints the completions of a shell: bash, zsh or fish.
pub fn write_completions<W: Write>(shell: &str, out: &mut W) -> io::Result<()> {
    let mut script = CompletionScript {
        out,
        written: Ok(()),
    };
    match shell {
        "zsh" => script.zsh(),
        "fish" => script.fish(),
        _ => script.bash(),
    }
    let CompletionScript { written, .. } = script;
    written
}

/// A script for a shell, and whether all of it could be written so far: after a failure no more is.
#[derive(Drop)]
struct CompletionScript<'o, W> {
    out: &'o mut W,
    written: io::Result<()>,
}

impl<W: Write> CompletionScript<'_, W> {
    /// Writes a text.
    fn put(&mut self, text: &str) {
        if self.written.is_ok() {
            self.written = self.out.write_all(text.as_bytes());
        }
    }

    /// Writes a text that stands between single quotes, for each of these shells.
    fn put_quoted(&mut self, text: &str) {
        for (at, part) in text.split('\'').enumerate() {
            self.put(if at == 0 { "" } else { "'\\''" });
            self.put(part);
        }
    }

    /// Writes words with a blank after each.
    fn put_words(&mut self, words: &[&str]) {
        for word in words {
            self.put(word);
            self.put(" ");
        }
    }

    /// Writes a function for bash: which words may come at a place, and those of files where none may.
    fn bash(&mut self) {
        self.put(BASH_HEAD);
        for rows in commands() {
            self.names(rows);
        }
        self.put("help --help --version' ;;\n");
        for rows in commands() {
            self.bash_commands(rows);
        }
        self.put(BASH_TAIL);
    }

    /// Writes the names of commands, with a blank after each.
    fn names(&mut self, rows: &[CommandRow]) {
        for CommandRow(name, ..) in rows {
            self.put(name);
            self.put(" ");
        }
    }

    /// Writes what may come after each option of commands that has a value, and what else.
    fn bash_commands(&mut self, rows: &[CommandRow]) {
        for CommandRow(name, _, arguments, _) in rows {
            self.bash_values(name, arguments);
            self.put("        *:");
            self.put(name);
            self.put(":*) words='");
            self.bash_arguments(arguments);
            self.put("--help' ;;\n");
        }
    }

    /// Writes what may come after each option of a command that has a value.
    fn bash_values(&mut self, command: &str, arguments: &[Argument]) {
        for Argument(option, kind, _) in arguments {
            if kind.value().is_some() {
                self.put("        *:");
                self.put(command);
                self.put(":--");
                self.put(option);
                self.put(") words='");
                self.put_words(kind.words());
                self.put("' ;;\n");
            }
        }
    }

    /// Writes each option, or the words of which another argument is one.
    fn bash_arguments(&mut self, arguments: &[Argument]) {
        for Argument(option, kind, _) in arguments {
            if kind.is_option() {
                self.put("--");
                self.put(option);
                self.put(" ");
            } else {
                self.put_words(kind.words());
            }
        }
    }

    /// Writes a function for zsh.
    fn zsh(&mut self) {
        self.put(ZSH_HEAD);
        for rows in commands() {
            self.zsh_names(rows);
        }
        self.put(ZSH_MIDDLE);
        for rows in commands() {
            self.zsh_commands(rows);
        }
        self.put(ZSH_TAIL);
    }

    /// Writes commands and their help.
    fn zsh_names(&mut self, rows: &[CommandRow]) {
        for CommandRow(name, about, ..) in rows {
            self.put("        '");
            self.put(name);
            self.put(":");
            self.put_quoted(about);
            self.put("'\n");
        }
    }

    /// Writes the arguments of commands.
    fn zsh_commands(&mut self, rows: &[CommandRow]) {
        for CommandRow(name, _, arguments, _) in rows {
            self.put("        ");
            self.put(name);
            self.put(") _arguments");
            self.zsh_arguments(arguments);
            self.put(" '--help[Print help]' ;;\n");
        }
    }

    /// Writes arguments: whether each may be repeated, its option and help, and the name and the words of its value.
    fn zsh_arguments(&mut self, arguments: &[Argument]) {
        for Argument(name, kind, help) in arguments {
            self.put(" \\\n            '");
            self.put(if kind.is_repeated() { "*" } else { "" });
            if kind.is_option() {
                self.zsh_option(name, help);
                self.zsh_values(kind.value(), kind.words());
            } else {
                self.zsh_values(Some(*name), kind.words());
            }
            self.put("'");
        }
    }

    /// Writes an option and its help.
    fn zsh_option(&mut self, name: &str, help: &str) {
        self.put("--");
        self.put(name);
        self.put("[");
        self.put_quoted(help);
        self.put("]");
    }

    /// Writes the name of a value, if there is one, and what it may be: one of these words, or a file where there are none.
    fn zsh_values(&mut self, value: Option<&str>, words: &[&str]) {
        let Some(value) = value else {
            return;
        };
        self.put(":");
        self.put(value);
        if words.is_empty() {
            self.put(":_files");
            return;
        }
        self.put(":(");
        self.put_words(words);
        self.put(")");
    }

    /// Writes commands for fish.
    fn fish(&mut self) {
        self.put(FISH_HEAD);
        for rows in commands() {
            self.fish_commands(rows);
        }
    }

    /// Writes commands and their help, and their arguments.
    fn fish_commands(&mut self, rows: &[CommandRow]) {
        for CommandRow(name, about, arguments, _) in rows {
            self.put("complete -c mrep -n __fish_use_subcommand -f -a ");
            self.put(name);
            self.fish_help(about);
            self.fish_arguments(name, arguments);
        }
    }

    /// Writes help, at the end of a line.
    fn fish_help(&mut self, help: &str) {
        self.put(" -d '");
        self.put_quoted(help);
        self.put("'\n");
    }

    /// Writes the arguments of a command for which there is something to complete: options, and those that are one of some words.
    fn fish_arguments(&mut self, command: &str, arguments: &[Argument]) {
        for Argument(name, kind, help) in arguments {
            if kind.is_option() || !kind.words().is_empty() {
                self.put("complete -c mrep -n '__fish_seen_subcommand_from ");
                self.put(command);
                self.put("'");
                if kind.is_option() {
                    self.put(" -l ");
                    self.put(name);
                }
                if kind.value().is_some() {
                    self.put(" -r");
                }
                self.fish_words(kind.words());
                self.fish_help(help);
            }
        }
    }

    /// Writes the words of which a value is one.
    fn fish_words(&mut self, words: &[&str]) {
        if !words.is_empty() {
            self.put(" -f -a '");
            self.put_words(words);
            self.put("'");
        }
    }
}
