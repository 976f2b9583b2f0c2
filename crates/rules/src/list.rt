// The rules of a task.
use entries::Rule;

/// A task whose labels are to keep every rule of a list. Its state has one base-3 digit a rule, that of the first rule lowest.
#[derive(Clone, Copy)]
pub struct Rules<'a> {
    pub(crate) rules: &'a [Rule],
}
