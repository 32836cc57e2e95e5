//! The rule over the copies.
use crate::step::Step;
use archive_entry::Entry;
use archive_history::Naming;
use crossbeam_utils::rule::{Outcome, Protocol};
use left_right::Absorb;
use left_right::reader::Reader;
use left_right::writer::Writer;
use std::collections::LinkedList;
use std::marker::PhantomData;

/// What a reader or the writer has seen. No value of it is made.
pub struct View {
    pub seen: LinkedList<Entry>,
}

/// The rule: what each view has seen is a beginning of what is shown.
pub struct Published<J: Naming> {
    of: PhantomData<J>,
}

impl<J: Naming, T: Absorb<Step<J>, State = [Entry; 0]>> Protocol<T, View> for Published<J> {
    ghost use Rattle.two_copies.specs.Rule.{Keeps, newcomer};

    ghost holds = { λ shown views. Keeps (T.state shown) views };

    ghost first = { newcomer };
}

/// A look at the copy that is shown, or showing the other one: the view has seen it all then.
pub struct Looks<J: Naming> {
    of: PhantomData<J>,
}

impl<J: Naming, T: Absorb<Step<J>, State = [Entry; 0]>> Outcome<T, View> for Looks<J> {
    ghost use Rattle.two_copies.specs.Rule.{Finds};

    ghost then = { λ before old shown after. Finds before (T.state shown) after };
}

/// A reader of the copies.
pub type CopyReader<J, T> = Reader<T, View, Published<J>>;

/// The writer of the copies.
pub type CopyWriter<J, T> = Writer<T, Step<J>, View, Published<J>>;
