//! The literal list and the glob list.

use crate::bytes::append_text;
use crate::list::Entry;
use crate::room::take_text;
use crate::rules::weight_and_flags;
use crate::stored_rule::StoredRule;
use mime_base::OutOfMemory;
use std::alloc::Global;

impl Entry<3> for StoredRule<'_> {
    ghost use Rattle.mime_base.specs.Format.Rules.{IsRule};
    ghost use Rattle.mime_base.specs.declared.database.rule.GlobRule.{GlobRule};
    ghost use Rattle.mime_store.specs.Views.{rule_of, rule_texts_room};
    ghost use Rattle.std.proofs.Common.{lit<, lit≤};

    ghost Plain = { GlobRule };

    ghost plain = { rule_of };

    ghost room = { rule_texts_room };

    ghost IsRecord = { IsRule };

    fn take_room(&self, left: usize) -> Option<usize> {
        let left = left.checked_sub(12)?;
        let left = take_text(left, &self.text)?;
        take_text(left, self.rule.kind.bytes())
    }

    #[tactic(auto, using(crate::proofs::RulesLemmas::Fits::type_fits))]
    fn write(&self, _alloc: Global, out: &mut Vec<u8>) -> Result<[u32; 3], OutOfMemory> {
        let text = append_text(out, &self.text)?;
        let kind = append_text(out, self.rule.kind.bytes())?;
        Ok([text, kind, weight_and_flags(self.rule)])
    }

    ghost some = { lit< tt };

    ghost few = { lit≤ tt };
}
