//! The entries around a phrase, counted from the innermost one.

ghost use Rattle.std.specs.Prelude.{◌≡◌, ◌-◌, ◌<◌, ◌≤◌, Some, length, drop, suc, take, slice_get};
ghost use Rattle.theory_printing.specs.Names.{count_of};
ghost use Rattle.theory_text_names.specs.Uses.{is_init, is_mem};
ghost use Rattle.htt_resolve_scopes.specs.Views.{sort_of};
ghost use Rattle.htt_printer_names.specs.Views.{innermost_sorts};

use htt_resolve_scopes::Sort;

/// How many of the entries are a heap `init`.
pub(crate) fn inits(entries: &[Sort]) -> u64
    ensures counted { result ≡ count_of is_init (innermost_sorts entries.now) }
{
    let mut count: u64 = 0;
    for sort in entries {
        count += u64::from(sort.is_init());
    }
    count
}

/// How many of the entries are a heap `mem`.
pub(crate) fn mems(entries: &[Sort]) -> u64
    ensures counted { result ≡ count_of is_mem (innermost_sorts entries.now) }
{
    let mut count: u64 = 0;
    for sort in entries {
        count += u64::from(sort.is_mem());
    }
    count
}
