//! Passes over an endpoint, however deep it is nested, without recursion, and keeps nothing of it.
ghost use Rattle.std.specs.Prelude.{◌≡◌, ◌≤◌, length, IfOk, IfErr};
ghost use Rattle.ba_message.specs.declared.endpoints.TheConstants.{MOST_ENDPOINT_BYTES};
ghost use Rattle.ba_record.specs.Reading.{read, Explains, read_any_endpoint, read_tree};
ghost use Rattle.ba_record.specs.inside.Skips.{without_value, read_parameters, read_piece_head, read_pieces, read_tree_head};

use crate::fields::{FieldFault, Fields};

impl<'a> Fields<'a> {
    // An element's name and attributes, and how many pieces its content has.
    #[tactic(auto, using(crate::proofs::Onward::explained_onward))]
    fn tree_head(&mut self) -> Result<u16, FieldFault>
        ensures ok { IfOk result (λ pieces. read_tree_head self.old.rest.now ≡ read pieces self.new.rest.now) }
        ensures fault { IfErr result (Explains (read_tree_head self.old.rest.now) self.new.rest.now) }
    {
        let _name = self.name()?;
        let _attributes = self.attributes()?;
        self.two_bytes()
    }

    // A text, or the head of an element: how many pieces are still to come in it.
    #[tactic(auto, using(crate::proofs::Onward::explained_onward))]
    fn piece_head(&mut self) -> Result<u16, FieldFault>
        ensures ok { IfOk result (λ pieces. read_piece_head self.old.rest.now ≡ read pieces self.new.rest.now) }
        ensures fault { IfErr result (Explains (read_piece_head self.old.rest.now) self.new.rest.now) }
    {
        let field = self.rest;
        match self.byte()? {
            0 => {
                let _text = self.text()?;
                Ok(0)
            }
            1 => self.tree_head(),
            _ => Err(self.back_to(field)),
        }
    }

    // So many pieces of an element, with all that is in them. Only how many are still to come is counted, whichever
    // element they are in.
    #[tactic(auto, using(crate::proofs::SkipLemmas::pieces_go_on, crate::proofs::SkipLemmas::pieces_stop, crate::proofs::SkipLemmas::piece_head_takes))]
    fn skip_pieces(&mut self, count: u16) -> Result<(), FieldFault>
        requires { length self.old.rest.now ≤ MOST_ENDPOINT_BYTES }
        ensures ok { IfOk result (λ done. without_value (read_pieces count self.old.rest.now) ≡ read done self.new.rest.now) }
        ensures fault { IfErr result (Explains (without_value (read_pieces count self.old.rest.now)) self.new.rest.now) }
    {
        let mut open = count as u64;
        'pieces: while open > 0 {
            let more = self.piece_head()?;
            open = open - 1 + more as u64;
        }
        Ok(())
    }

    #[tactic(auto, using(crate::proofs::Onward::explained_onward, crate::proofs::SkipLemmas::tree_by_head, crate::proofs::SkipLemmas::tree_head_leaves))]
    fn skip_tree(&mut self) -> Result<(), FieldFault>
        requires { length self.old.rest.now ≤ MOST_ENDPOINT_BYTES }
        ensures ok { IfOk result (λ done. without_value (read_tree MOST_ENDPOINT_BYTES self.old.rest.now) ≡ read done self.new.rest.now) }
        ensures fault { IfErr result (Explains (without_value (read_tree MOST_ENDPOINT_BYTES self.old.rest.now)) self.new.rest.now) }
    {
        let pieces = self.tree_head()?;
        self.skip_pieces(pieces)
    }

    #[tactic(auto, using(crate::proofs::Onward::explained_onward, crate::proofs::SkipLemmas::many_go_on, crate::proofs::SkipLemmas::many_halt, crate::proofs::SkipLemmas::tree_leaves))]
    fn skip_parameters(&mut self) -> Result<(), FieldFault>
        requires { length self.old.rest.now ≤ MOST_ENDPOINT_BYTES }
        ensures ok { IfOk result (λ done. without_value (read_parameters MOST_ENDPOINT_BYTES self.old.rest.now) ≡ read done self.new.rest.now) }
        ensures fault { IfErr result (Explains (without_value (read_parameters MOST_ENDPOINT_BYTES self.old.rest.now)) self.new.rest.now) }
    {
        let count = self.byte()?;
        'parameters: for done in 0..count {
            self.skip_tree()?;
        }
        Ok(())
    }

    /// An endpoint, whether or not it fits.
    #[tactic(auto, using(crate::proofs::Onward::explained_onward, crate::proofs::SkipLemmas::endpoint_by_parameters))]
    pub fn skip_endpoint(&mut self) -> Result<(), FieldFault>
        requires { length self.old.rest.now ≤ MOST_ENDPOINT_BYTES }
        ensures ok { IfOk result (λ done. without_value (read_any_endpoint self.old.rest.now) ≡ read done self.new.rest.now) }
        ensures fault { IfErr result (Explains (without_value (read_any_endpoint self.old.rest.now)) self.new.rest.now) }
    {
        let _address = self.text()?;
        self.skip_parameters()
    }
}
