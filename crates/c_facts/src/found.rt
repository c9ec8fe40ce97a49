//! The facts of a file, from its function definitions and declarations in their order.

ghost use Rattle.std.specs.Prelude.{◌≡◌, IfOk};
ghost use Rattle.c_syntax.specs.StatementsView as views;
ghost use Rattle.c_scope.specs.Environment.{facts_of};
ghost use Rattle.c_facts.specs.Facts.{facts_in};

use crate::specifiers::{add_tags, declares_function, has_extern, name_function};
use c_scope::environment::Facts;
use c_scope::names::Names;
use c_syntax::names::declared_name;
use c_syntax::specifiers::has_typedef;
use c_syntax::{
    Declaration, Declarator, External, InitDeclarator, InitDeclarators, Position, Specifier,
};
use std::alloc::{AllocError, Global};

/// The facts so far, and which typedef names stand for function types.
#[derive(Drop)]
pub struct Found<'a> {
    facts: Facts<'a>,
    types: Names<'a, bool>,
}

/// What the specifiers of a declaration say of its declarators.
#[derive(Clone, Copy)]
pub struct Heading {
    is_typedef: bool,
    has_extern: bool,
    is_function: bool,
}

/// The facts of a file.
pub fn facts_in<'a>(alloc: Global, externals: &[External<'a>]) -> Result<Facts<'a>, AllocError>
    ensures { IfOk result (λ facts. facts_of facts ≡ facts_in (views.externals_in externals.now)) }
{
    let mut found = Found::nothing(alloc);
    for external in externals {
        found.add_external(external)?;
    }
    let Found { facts, types: _ } = found;
    Ok(facts)
}

impl<'a> Found<'a> {
    ghost use Rattle.std.specs.Prelude.{◌≡◌, OnOk, Some};
    ghost use Rattle.c_syntax.specs.StatementsView as views;
    ghost use Rattle.c_syntax.specs.Formed as formed;
    ghost use Rattle.c_syntax.specs.View as view;
    ghost use Rattle.c_facts.specs.Facts.{defined, found_of, heading, heading_of, nothing_found, with_declaration};
    ghost use Rattle.c_facts.specs.Facts.{with_declarator, with_definition, with_external, with_more, with_named};

    fn nothing(alloc: Global) -> Self
        ensures { found_of result ≡ nothing_found }
    {
        Found {
            facts: Facts {
                functions: Names::new(alloc),
                objects: Names::new(alloc),
                tags: Names::new(alloc),
            },
            types: Names::new(alloc),
        }
    }

    fn add_external(&mut self, external: &External<'a>) -> Result<(), AllocError>
        ensures { OnOk result (found_of self.new ≡ with_external (views.external_of external.now) (found_of self.old)) }
    {
        match external {
            External::Function(specifiers, declarator, _) => {
                self.add_definition(specifiers.as_slice(), declarator.get())
            }
            External::Declaration(declaration) => self.add_declaration(declaration),
        }
    }

    fn add_definition(
        &mut self,
        specifiers: &[Specifier<'a>],
        declarator: &Declarator<'a>,
    ) -> Result<(), AllocError>
        ensures { OnOk result (found_of self.new ≡ with_definition (view.specifiers_in specifiers.now)
            (formed.declared (view.declarator_of declarator.now)) (found_of self.old)) }
    {
        add_tags(&mut self.facts.tags, specifiers)?;
        match declared_name(declarator) {
            None => Ok(()),
            Some(name) => self.add_function(name.bytes()),
        }
    }

    // A function has the next number where it has none.
    fn add_function(&mut self, name: &'a [u8]) -> Result<(), AllocError>
        ensures { OnOk result (found_of self.new ≡ record (found_of self.old) {
          facts = defined (Some name.now) (found_of self.old).facts;
        }) }
    {
        if self.facts.functions.get(name).is_some() {
            return Ok(());
        }
        let number = self.facts.functions.len();
        self.facts.functions.bind(name, number)
    }

    fn add_declaration(&mut self, declaration: &Declaration<'a>) -> Result<(), AllocError>
        ensures { OnOk result (found_of self.new
            ≡ with_declaration (views.declaration_of declaration.now) (found_of self.old)) }
    {
        let heading = self.heading(declaration.specifiers.as_slice());
        add_tags(&mut self.facts.tags, declaration.specifiers.as_slice())?;
        match &declaration.declarators {
            None => Ok(()),
            Some(declarators) => self.add_declarators(heading, declarators.get()),
        }
    }

    fn heading(&self, specifiers: &[Specifier<'a>]) -> Heading
        ensures { heading_of result ≡ heading (found_of self.now).types (view.specifiers_in specifiers.now) }
    {
        Heading {
            is_typedef: has_typedef(specifiers),
            has_extern: has_extern(specifiers),
            is_function: name_function(&self.types, specifiers),
        }
    }

    fn add_declarators(
        &mut self,
        heading: Heading,
        declarators: &InitDeclarators<'a>,
    ) -> Result<(), AllocError>
        ensures { OnOk result (found_of self.new ≡ with_more (heading_of heading)
            (views.more_init_declarators_in declarators.now.others)
            (with_declarator (heading_of heading) (views.init_declarator_of declarators.now.first)
            (found_of self.old))) }
    {
        self.add_declarator(heading, &declarators.first)?;
        self.add_more(heading, declarators.others.as_slice())
    }

    fn add_more(
        &mut self,
        heading: Heading,
        others: &[(Position, InitDeclarator<'a>)],
    ) -> Result<(), AllocError>
        ensures { OnOk result (found_of self.new
            ≡ with_more (heading_of heading) (views.more_init_declarators_in others.now) (found_of self.old)) }
    {
        for (_, declarator) in others {
            self.add_declarator(heading, declarator)?;
        }
        Ok(())
    }

    fn add_declarator(
        &mut self,
        heading: Heading,
        declarator: &InitDeclarator<'a>,
    ) -> Result<(), AllocError>
        ensures { OnOk result (found_of self.new
            ≡ with_declarator (heading_of heading) (views.init_declarator_of declarator.now) (found_of self.old)) }
    {
        let is_function = declares_function(heading.is_function, declarator.declarator.get());
        let has_initializer = declarator.initializer.is_some();
        match declared_name(declarator.declarator.get()) {
            None => Ok(()),
            Some(name) => self.add_named(heading, is_function, has_initializer, name.bytes()),
        }
    }

    fn add_named(
        &mut self,
        heading: Heading,
        is_function: bool,
        has_initializer: bool,
        name: &'a [u8],
    ) -> Result<(), AllocError>
        ensures { OnOk result (found_of self.new
            ≡ with_named (heading_of heading) is_function has_initializer name.now (found_of self.old)) }
    {
        if heading.is_typedef {
            return self.types.bind(name, is_function);
        }
        if !is_function && (!heading.has_extern || has_initializer) {
            return self.facts.objects.bind(name, true);
        }
        Ok(())
    }
}
