//! Trees and endpoints, read field after field.
ghost use Rattle.std.specs.Prelude.{◌≡◌, take, IfOk, IfErr};
ghost use Rattle.ba_message.specs.Endpoints.{fits_endpoint};
ghost use Rattle.ba_record.specs.Reading.{read, Explains, read_name, read_attribute, read_attributes, read_content, read_contents, read_tree};
ghost use Rattle.ba_record.specs.Reading.{IsBytes, read_endpoint, read_upward, read_option, short, tested};
ghost use Rattle.ba_record.specs.inside.Skips.{read_parameters, read_shallow_endpoint};

use crate::endpoints::endpoint_fits;
use crate::fields::{FieldFault, Fields, octets};
use ba_core::{List, Octets, Protocol};
use ba_message::{Epr, MOST_ENDPOINT_BYTES, MOST_PARAMETER_LEVELS};
use ba_tree::{Attribute, Content, Name, Namespace, Tree};

const MOST_BYTES: usize = MOST_ENDPOINT_BYTES as usize;

const MOST_LEVELS: usize = MOST_PARAMETER_LEVELS as usize;

impl<'a> Fields<'a> {
    /// An expanded name.
    #[tactic(auto, using(crate::proofs::Onward::explained_onward))]
    pub fn name(&mut self) -> Result<Name, FieldFault>
        ensures ok { IfOk result (λ name. read_name self.old.rest.now ≡ read name self.new.rest.now) }
        ensures fault { IfErr result (Explains (read_name self.old.rest.now) self.new.rest.now) }
    {
        let bytes = self.string()?;
        let Ok(space) = Namespace::of(self.alloc, bytes) else {
            return Err(FieldFault::Memory);
        };
        let local = self.string()?;
        Ok(Name { space, local })
    }

    #[tactic(auto, using(crate::proofs::Onward::explained_onward))]
    fn attribute(&mut self) -> Result<Attribute, FieldFault>
        ensures ok { IfOk result (λ attribute. read_attribute self.old.rest.now ≡ read attribute self.new.rest.now) }
        ensures fault { IfErr result (Explains (read_attribute self.old.rest.now) self.new.rest.now) }
    {
        let name = self.name()?;
        let value = self.string()?;
        Ok(Attribute { name, value })
    }

    /// A count of one byte, and so many attributes.
    #[tactic(auto, using(crate::proofs::Onward::explained_onward, crate::proofs::Onward::many_goes_on, crate::proofs::Onward::many_stops, crate::proofs::Onward::many_ends, crate::proofs::Onward::many_begin))]
    pub fn attributes(&mut self) -> Result<List<Attribute>, FieldFault>
        ensures ok { IfOk result (λ attributes. read_attributes self.old.rest.now ≡ read attributes self.new.rest.now) }
        ensures fault { IfErr result (Explains (read_attributes self.old.rest.now) self.new.rest.now) }
    {
        let count = self.byte()?;
        let mut attributes = List::new(self.alloc);
        'attributes: for done in 0..count {
            let attribute = self.attribute()?;
            if attributes.push(attribute).is_err() {
                return Err(FieldFault::Memory);
            }
        }
        Ok(attributes)
    }

    // A tree of at most so many levels.
    #[cycle(trees)]
    #[tactic(auto, using(crate::proofs::Onward::explained_onward, crate::proofs::Onward::tree_below, crate::proofs::Onward::no_levels))]
    fn tree(&mut self, levels: usize) -> Result<Tree, FieldFault>
        ensures ok { IfOk result (λ tree. read_tree levels self.old.rest.now ≡ read tree self.new.rest.now) }
        ensures fault { IfErr result (Explains (read_tree levels self.old.rest.now) self.new.rest.now) }
    {
        if levels == 0 {
            return Err(FieldFault::Short);
        }
        let name = self.name()?;
        let attributes = self.attributes()?;
        let content = self.contents(levels - 1)?;
        Ok(Tree {
            name,
            attributes,
            content,
        })
    }

    #[cycle(trees)]
    #[tactic(auto, using(crate::proofs::Onward::explained_onward, crate::proofs::Onward::many_goes_on, crate::proofs::Onward::many_stops, crate::proofs::Onward::many_ends, crate::proofs::Onward::many_begin))]
    fn contents(&mut self, levels: usize) -> Result<List<Content>, FieldFault>
        ensures ok { IfOk result (λ contents. read_contents (read_tree levels) self.old.rest.now ≡ read contents self.new.rest.now) }
        ensures fault { IfErr result (Explains (read_contents (read_tree levels) self.old.rest.now) self.new.rest.now) }
    {
        let count = self.two_bytes()?;
        let mut contents = List::new(self.alloc);
        'contents: for done in 0..count {
            let content = self.content(levels)?;
            if contents.push(content).is_err() {
                return Err(FieldFault::Memory);
            }
        }
        Ok(contents)
    }

    #[cycle(trees)]
    #[tactic(auto, using(crate::proofs::Onward::explained_onward))]
    fn content(&mut self, levels: usize) -> Result<Content, FieldFault>
        ensures ok { IfOk result (λ content. read_content (read_tree levels) self.old.rest.now ≡ read content self.new.rest.now) }
        ensures fault { IfErr result (Explains (read_content (read_tree levels) self.old.rest.now) self.new.rest.now) }
    {
        let field = self.rest;
        match self.byte()? {
            0 => Ok(Content::Text(self.string()?)),
            1 => Ok(Content::Child(self.tree(levels)?)),
            _ => Err(self.back_to(field)),
        }
    }

    // Trees of no more levels than those of an endpoint that fits.
    #[tactic(auto, using(crate::proofs::Onward::explained_onward, crate::proofs::Onward::many_goes_on, crate::proofs::Onward::many_stops, crate::proofs::Onward::many_ends, crate::proofs::Onward::many_begin))]
    fn parameters(&mut self) -> Result<List<Tree>, FieldFault>
        ensures ok { IfOk result (λ parameters. read_parameters MOST_PARAMETER_LEVELS self.old.rest.now ≡ read parameters self.new.rest.now) }
        ensures fault { IfErr result (Explains (read_parameters MOST_PARAMETER_LEVELS self.old.rest.now) self.new.rest.now) }
    {
        let count = self.byte()?;
        let mut parameters = List::new(self.alloc);
        'parameters: for done in 0..count {
            let parameter = self.tree(MOST_LEVELS)?;
            if parameters.push(parameter).is_err() {
                return Err(FieldFault::Memory);
            }
        }
        Ok(parameters)
    }

    // An endpoint of no more levels than one that fits, whether or not it does.
    #[tactic(auto, using(crate::proofs::Onward::explained_onward))]
    fn shallow_endpoint(&mut self) -> Result<Epr, FieldFault>
        ensures ok { IfOk result (λ epr. read_shallow_endpoint self.old.rest.now ≡ read epr self.new.rest.now) }
        ensures fault { IfErr result (Explains (read_shallow_endpoint self.old.rest.now) self.new.rest.now) }
    {
        let address = self.string()?;
        let parameters = self.parameters()?;
        Ok(Epr {
            address,
            parameters,
        })
    }

    /// An endpoint that fits. It is bad as a whole, whatever is wrong in it; it is short only where the bytes end
    /// before it does and before the most bytes that it may have. However deep it is nested, only as many levels
    /// are read as fit.
    pub fn endpoint(&mut self) -> Result<Epr, FieldFault>
        ensures ok { IfOk result (λ epr. read_endpoint self.old.rest.now ≡ read epr self.new.rest.now) }
        ensures fault { IfErr result (Explains (read_endpoint self.old.rest.now) self.new.rest.now) }
    {
        let field = self.rest;
        let front = most_of(field);
        let mut within = Fields::new(self.alloc, front);
        match within.shallow_endpoint() {
            Ok(epr) => {
                self.skip(front.len() - within.len());
                self.fitting(epr, field)
            }
            Err(FieldFault::Memory) => Err(FieldFault::Memory),
            Err(FieldFault::Bad) => Err(self.back_to(field)),
            Err(FieldFault::Short) => Err(self.unended(field)),
        }
    }

    // The endpoint, which began where these bytes do, if it fits.
    fn fitting(&mut self, epr: Epr, field: &'a [u8]) -> Result<Epr, FieldFault>
        ensures ok { IfOk result (λ same. tested fits_endpoint field.now epr self.old.rest.now ≡ read same self.new.rest.now) }
        ensures fault { IfErr result (Explains (tested fits_endpoint field.now epr self.old.rest.now) self.new.rest.now) }
    {
        if endpoint_fits(&epr) {
            return Ok(epr);
        }
        Err(self.back_to(field))
    }

    // The endpoint that began where these bytes do didn't end within as many levels and bytes as it may have: it is
    // bad, unless the bytes end inside it.
    fn unended(&mut self, field: &'a [u8]) -> FieldFault
        requires { read_shallow_endpoint (take MOST_ENDPOINT_BYTES field.now) ≡ short }
        ensures { Explains (read_endpoint field.now) self.new.rest.now result }
    {
        if field.len() >= MOST_BYTES {
            return self.back_to(field);
        }
        let mut within = Fields::new(self.alloc, field);
        match within.skip_endpoint() {
            Err(FieldFault::Memory) => FieldFault::Memory,
            Err(FieldFault::Short) => FieldFault::Short,
            Err(FieldFault::Bad) => self.back_to(field),
            // It is nested too deep.
            Ok(()) => self.back_to(field),
        }
    }

    #[tactic(auto, using(crate::proofs::Onward::explained_onward))]
    fn registration(&mut self) -> Result<(Protocol, Epr), FieldFault>
        ensures ok { IfOk result (λ upward. read_upward self.old.rest.now ≡ read upward self.new.rest.now) }
        ensures fault { IfErr result (Explains (read_upward self.old.rest.now) self.new.rest.now) }
    {
        let protocol = self.protocol()?;
        let registration = self.endpoint()?;
        Ok((protocol, registration))
    }

    /// An option of a child's upward part: its protocol and where it registers.
    #[tactic(auto, using(crate::proofs::Onward::explained_onward))]
    pub fn upward(&mut self) -> Result<Option<(Protocol, Epr)>, FieldFault>
        ensures ok { IfOk result (λ upward. read_option read_upward self.old.rest.now ≡ read upward self.new.rest.now) }
        ensures fault { IfErr result (Explains (read_option read_upward self.old.rest.now) self.new.rest.now) }
    {
        let field = self.rest;
        match self.byte()? {
            0 => Ok(None),
            1 => Ok(Some(self.registration()?)),
            _ => Err(self.back_to(field)),
        }
    }
}

// The first bytes, as many as an endpoint may have at most.
fn most_of(bytes: &[u8]) -> &[u8]
    ensures front { result.now ≡ take MOST_ENDPOINT_BYTES bytes.now }
    ensures bytes { IsBytes result.now }
{
    if bytes.len() < MOST_BYTES {
        return bytes;
    }
    &bytes[..MOST_BYTES]
}
