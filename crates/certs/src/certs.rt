ghost use Rattle.std.specs.Prelude.{◌≡◌, ◌<◌, ◌&&◌, Some, length, slice_get, slice_set};
ghost use Rattle.std.specs.Option.{option_copied};
ghost use Rattle.certs.specs.Certs.{mark_of};
ghost use Rattle.certs.specs.Fits as spec;
ghost use Rattle.certs.specs.ForeignFit.{foreign_fits};
ghost use Rattle.certs.specs.ShapesFit.{shapes_fit};

use crate::fits::sections_fit;
use crate::foreign::foreign_fits;
use crate::section::{Mark, Section};
use crate::shapes::shapes_fit;
use ir_ast::{FuncId, Module, Outside, Shapes};
use items::Items;

/// The certificates of a module's functions.
#[derive(Drop)]
pub struct Certs {
    /// By the numbers of the functions.
    pub sections: Items<Section>,
    /// What the words, globals and slots of type `ptr` refer to. Those of a typed text have none.
    pub shapes: Option<Shapes>,
    /// The functions outside of the module whose promise is trusted, and the numbers of layouts.
    pub foreign: Outside,
}

impl Certs {
    /// The certificate of this function.
    pub fn section(&self, function: FuncId) -> Option<&Section>
        ensures { option_copied result ≡ slice_get self.now.sections function }
    {
        self.sections.get(function.number() as usize)
    }

    /// How this function is marked.
    pub fn mark(&self, function: FuncId) -> Option<Mark>
        ensures { result ≡ mark_of self.now.sections function }
    {
        let section = self.section(function)?;
        Some(section.mark)
    }

    /// Puts another certificate in the place of this function's, and gives that one back.
    pub fn replace(&mut self, function: FuncId, section: Section) -> Section
        requires { function < length self.old.sections }
        ensures given_back { slice_get self.old.sections function ≡ Some result }
        ensures new { self.new.sections ≡ slice_set self.old.sections function section }
        ensures shapes { self.new.shapes ≡ self.old.shapes }
        ensures foreign { self.new.foreign ≡ self.old.foreign }
    {
        self.sections.replace(function.number() as usize, section)
    }

    /// What the words, globals and slots of type `ptr` refer to, if these are certificates of an opaque text.
    pub fn shapes(&self) -> Option<&Shapes>
        ensures { option_copied result ≡ self.now.shapes }
    {
        self.shapes.as_ref()
    }

    /// Whether the sections are those of this module. It takes no memory. Of each block the claims that come in the order of their values are
    /// searched by halves, and others are compared with one another. For each slot the function's instructions are gone over once for each bitcast between an alloca and a gcroot call.
    pub fn sections_fit(&self, module: &Module) -> bool
        ensures { result ≡ spec.fits «module».now self.now.sections }
    {
        self.sections.len() == module.functions.len()
            && sections_fit(
                module,
                module.functions.as_slice(),
                self.sections.as_slice(),
            )
    }

    /// Whether these are certificates of this module: its sections, and shapes exactly where its text writes `ptr`, which name layouts of it,
    /// one for each global and each root slot of type `ptr`. Whether each word of that type has one is told by the layouts. Functions outside are
    /// trusted of a module of the wide forms alone, each once, and so layouts have numbers; they are compared with one another. It takes no memory.
    pub fn fits(&self, module: &Module) -> bool
        ensures { result ≡ spec.fits «module».now self.now.sections && shapes_fit «module».now self.now.shapes && foreign_fits «module».now self.now.foreign }
    {
        self.sections_fit(module)
            && shapes_fit(module, &self.shapes)
            && foreign_fits(module, &self.foreign)
    }
}
