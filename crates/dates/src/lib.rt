// What calendar dates are, as in items/date.rs and year.rs. The definitions and laws of their readers are here; the readers are in `date_parts`
// (years, days that exist), `month_names`, `named_month_dates` and `date_readers`.

#![tactic(auto)]

pub mod date;
