//! Tasks: the work of a client on a thread of its own.

ghost use Rattle.std.specs.Prelude.{◌≡◌, ◌++◌, ◌∷◌, [], List, MatchOption, IfOk, OnOk};
ghost use Rattle.std.specs.Vec.Iter.{into_iter_items};

use pref_core::{Act, Reply};
use std::alloc::{AllocError, Global};
use std::vec::IntoIter;

/// A task of a client: it gives its acts one by one, and takes the reply to each before it gives the next.
pub trait Task {
    ghost use Rattle.std.specs.Prelude.{◌≡◌, ◌++◌, ◌∷◌, [], List, MatchOption, IfOk, OnOk};
    ghost use Rattle.pref_core.specs.declared.event.Act.{Act as ActValue};
    ghost use Rattle.pref_core.specs.declared.event.Reply.{Reply as ReplyValue};

    /// The acts that have not come.
    ghost left: { Self → List ActValue };

    /// A relation between a task as it was at first, as it is now, and the replies that it took in between. The author of a task picks it.
    ghost took: { Self → Self → List ReplyValue → Type 0 };

    /// The next act, if one is left. Refused where there is no memory for it.
    fn next(&mut self, alloc: Global) -> Result<Option<Act>, AllocError>
        ensures next { IfOk result (λ next. MatchOption next (left self.old ≡ []) (λ act. left self.old ≡ act ∷ left self.new)) }
        ensures same { IfOk result (λ _. (first : _) (replies : List ReplyValue) → took first self.old replies → took first self.new replies) };

    /// Takes the reply to the act that came last. Refused where there is no memory for it.
    fn take(&mut self, reply: Reply) -> Result<(), AllocError>
        ensures same { OnOk result (left self.new ≡ left self.old) }
        ensures taken { OnOk result ((first : _) (replies : List ReplyValue) → took first self.old replies → took first self.new (replies ++ reply ∷ [])) };
}

/// A list of acts, and the replies to those that came.
#[derive(Drop)]
pub(crate) struct Listed {
    acts: IntoIter<Act>,
    pub(crate) replies: Vec<Reply>,
}

impl Listed {
    /// The acts, and room for a reply to each.
    pub(crate) fn new(alloc: Global, acts: Vec<Act>) -> Result<Listed, AllocError>
        ensures acts { IfOk result (λ listed. into_iter_items listed.acts ≡ acts.items) }
        ensures replies { IfOk result (λ listed. listed.replies.items ≡ []) }
    {
        let replies = Vec::with_capacity(alloc, acts.len())?;
        Ok(Listed {
            acts: acts.into_iter(),
            replies,
        })
    }

    /// The replies to the acts that came.
    pub(crate) fn into_replies(self) -> Vec<Reply>
        ensures { result ≡ self.replies }
    {
        let Listed { acts: _, replies } = self;
        replies
    }
}

impl Task for Listed {
    ghost use Rattle.std.specs.Prelude.{◌≡◌};
    ghost use Rattle.std.specs.Vec.Iter.{into_iter_items};

    ghost left = { λ listed. into_iter_items listed.acts };

    ghost took = { λ _ listed replies. listed.replies.items ≡ replies };

    fn next(&mut self, _alloc: Global) -> Result<Option<Act>, AllocError> {
        Ok(self.acts.next())
    }

    fn take(&mut self, reply: Reply) -> Result<(), AllocError> {
        self.replies.push(reply)?;
        Ok(())
    }
}
