//! The filters by FreeBSD's numbers, -1 to -13, in both directions.

ghost use Rattle.std.specs.Prelude.{◌≡◌, IfSome};
ghost use Rattle.kq_model.specs.declared.filter.Filter.{Filter};
ghost use Rattle.kq_freebsd.specs.Numbers.{filter_number};

use kq_model::Filter;

/// The number of a filter, -1 to -13.
pub fn number_of_filter(filter: Filter) -> i16
    ensures { result ≡ filter_number filter }
{
    match filter {
        Filter::Read => -1,
        Filter::Write => -2,
        Filter::Aio => -3,
        Filter::Vnode => -4,
        Filter::Proc => -5,
        Filter::Signal => -6,
        Filter::Timer => -7,
        Filter::Procdesc => -8,
        Filter::Fs => -9,
        Filter::Lio => -10,
        Filter::User => -11,
        Filter::Sendfile => -12,
        Filter::Empty => -13,
    }
}

/// The filter of this number, if there is one.
pub fn filter_numbered(number: i16) -> Option<Filter>
    ensures found { IfSome result (λ filter. filter_number filter ≡ number) }
    ensures none { result ≡ None → (filter : Filter) → filter_number filter ≡ number → ⊥ }
{
    match number {
        -1 => Some(Filter::Read),
        -2 => Some(Filter::Write),
        -3 => Some(Filter::Aio),
        -4 => Some(Filter::Vnode),
        -5 => Some(Filter::Proc),
        -6 => Some(Filter::Signal),
        -7 => Some(Filter::Timer),
        -8 => Some(Filter::Procdesc),
        -9 => Some(Filter::Fs),
        -10 => Some(Filter::Lio),
        -11 => Some(Filter::User),
        -12 => Some(Filter::Sendfile),
        -13 => Some(Filter::Empty),
        _ => None,
    }
}
