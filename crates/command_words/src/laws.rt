//! The limits of workers as numbers. The call does nothing: its contract is the law.
ghost use Rattle.std.specs.Prelude.{◌≡◌};
ghost use Rattle.command_words.specs.declared.workers.TheConstants.{DEFAULT_WORKERS, MAX_WORKERS};

/// At most 32 workers condense, and 4 where the words name none.
pub fn limits_as_numbers()
    ensures most { MAX_WORKERS ≡ 32 }
    ensures default { DEFAULT_WORKERS ≡ 4 }
{}
