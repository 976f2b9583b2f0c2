// Tasks and joined boards, on tables of cases.

mod automata;
mod boards;
mod lists;
mod reading;
