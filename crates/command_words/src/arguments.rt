//! The words behind a command's name.
ghost use Rattle.std.specs.Prelude.{◌≡◌, ◌<◌, ◌≤◌, [], length, map, option_and_then, option_map, slice_get, string_bytes};
ghost use Rattle.command_words.specs.Arguments.{arguments_from, arguments_of, files_alone, files_and_workers, is_plain, no_arguments, option_named, plain, plain_value, with_file, with_value, without_return_fans, without_workers};
ghost use Rattle.command_words.specs.ArgumentsSeen.{arguments_seen};

use duct_ports::{MAX_NAMES, Names};

/// An option of the words.
#[derive(Clone, Copy)]
pub enum OptionName {
    Workers,
    ReturnFans,
}

/// The words that name files, and the values of the options that stand there.
#[derive(Drop)]
pub struct Arguments<'w> {
    files: Names<'w>,
    workers: Option<&'w str>,
    return_fans: Option<&'w str>,
}

impl<'w> Arguments<'w> {
    /// What the words are; None where an option has no value or stands twice, or where more files are named than a run
    /// may ask for. Takes no memory.
    pub fn of_words(words: &'w [String]) -> Option<Arguments<'w>>
        ensures { option_map arguments_seen result ≡ arguments_of (map string_bytes words.now) }
    {
        arguments_from(Arguments::none(), words)
    }

    /// No word yet.
    fn none() -> Arguments<'w>
        ensures { arguments_seen result ≡ no_arguments }
    {
        Arguments {
            files: Names::new(),
            workers: None,
            return_fans: None,
        }
    }

    /// The value of `--workers`, where it stands there.
    pub fn workers(&self) -> Option<&'w str>
        ensures { option_map (λ word. word.now) result ≡ (arguments_seen self.now).workers }
    {
        self.workers
    }

    /// The value of `--return-fans`, which is plain where it stands there.
    pub fn return_fans(&self) -> Option<Option<&'w str>>
        ensures { option_map (option_map (λ word. word.now)) result ≡ plain_value (arguments_seen self.now).return_fans }
    {
        match self.return_fans {
            Some(value) => Some(Some(plain(value)?)),
            None => Some(None),
        }
    }

    /// The files, whatever options stand there.
    pub fn files(&self) -> &Names<'w>
        ensures { result.now ≡ (arguments_seen self.now).files }
    {
        &self.files
    }

    /// The files, where no option stands.
    pub fn files_alone(&self) -> Option<&Names<'w>>
        ensures { option_map (λ files. files.now) result ≡ files_alone (arguments_seen self.now) }
    {
        if self.workers.is_some() || self.return_fans.is_some() {
            None
        } else {
            Some(&self.files)
        }
    }

    /// The files, where no return fans are named.
    pub fn files_and_workers(&self) -> Option<&Names<'w>>
        ensures { option_map (λ files. files.now) result ≡ files_and_workers (arguments_seen self.now) }
    {
        if self.return_fans.is_some() {
            None
        } else {
            Some(&self.files)
        }
    }

    /// The same arguments, where no workers are named.
    pub fn without_workers(&self) -> Option<&Arguments<'w>>
        ensures { option_map (λ arguments. arguments_seen arguments.now) result ≡ without_workers (arguments_seen self.now) }
    {
        if self.workers.is_some() {
            None
        } else {
            Some(self)
        }
    }

    /// The same arguments, where no return fans are named.
    pub fn without_return_fans(&self) -> Option<&Arguments<'w>>
        ensures { option_map (λ arguments. arguments_seen arguments.now) result ≡ without_return_fans (arguments_seen self.now) }
    {
        if self.return_fans.is_some() {
            None
        } else {
            Some(self)
        }
    }

    /// With the value of an option; None where it has one.
    fn with_value(self, option: OptionName, value: &'w str) -> Option<Arguments<'w>>
        ensures { option_map arguments_seen result ≡ with_value (arguments_seen self.entry) option value.now }
    {
        match option {
            OptionName::Workers if self.workers.is_none() => Some(Arguments {
                workers: Some(value),
                ..self
            }),
            OptionName::ReturnFans if self.return_fans.is_none() => Some(Arguments {
                return_fans: Some(value),
                ..self
            }),
            _ => None,
        }
    }

    /// With one file more, where there is room.
    fn with_file(self, word: &'w str) -> Option<Arguments<'w>>
        ensures { option_map arguments_seen result ≡ with_file (arguments_seen self.entry) word.now }
    {
        let Arguments {
            mut files,
            workers,
            return_fans,
        } = self;
        if files.len() >= MAX_NAMES {
            return None;
        }
        files.add(word);
        Some(Arguments {
            files,
            workers,
            return_fans,
        })
    }
}

/// The arguments with the words behind them.
fn arguments_from<'w>(arguments: Arguments<'w>, words: &'w [String]) -> Option<Arguments<'w>>
    ensures { option_map arguments_seen result ≡ arguments_from (arguments_seen arguments.entry) (map string_bytes words.now) }
{
    match words {
        [] => Some(arguments),
        [word] => match option_named(word.as_str()) {
            Some(_) => None,
            None => arguments.with_file(word.as_str()),
        },
        [word, value, after @ ..] => match option_named(word.as_str()) {
            Some(option) => arguments_from(arguments.with_value(option, value.as_str())?, after),
            None => arguments_from(arguments.with_file(word.as_str())?, &words[1..]),
        },
    }
}

/// The option that the word names.
fn option_named(word: &str) -> Option<OptionName>
    ensures { result ≡ option_named word.now }
{
    match word {
        "--workers" => Some(OptionName::Workers),
        "--return-fans" => Some(OptionName::ReturnFans),
        _ => None,
    }
}

/// The file at a place, where its word is plain.
pub fn plain_file<'w>(files: &Names<'w>, i: usize) -> Option<&'w str>
    ensures { option_map (λ word. word.now) result ≡ option_and_then plain (slice_get files.now i) }
{
    plain(files.get(i)?)
}

/// The word, where it is not empty and no option.
fn plain(word: &str) -> Option<&str>
    ensures { option_map (λ w. w.now) result ≡ plain word.now }
{
    if is_plain(word.as_bytes()) {
        Some(word)
    } else {
        None
    }
}

/// Whether the word is not empty and no option.
fn is_plain(word: &[u8]) -> bool
    ensures { result ≡ is_plain word.now }
{
    match word {
        [] => false,
        [first, ..] => *first != b'-',
    }
}
