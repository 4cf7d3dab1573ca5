//! What the parameters of generics stand for.

use crate::fault::RequestFault;
use crate::field::{FieldKind, Slot, StructField};
use crate::kind::{Parameter, Type, innermost, type_of};
use cp_fields::{PointerReader, StructReader};
use cp_schema_capnp::{
    BrandBindingReader, BrandBindingWhich, BrandReader, BrandScopeReader, BrandScopeWhich,
    TypeReader, TypeWhich,
};
use cp_tree::Tree;
use std::alloc::Global;

/// What a type binds the parameters of generics to, as schema.capnp's `Brand` has it. Null binds nothing.
pub struct Brand {
    tree: Tree,
}

// Not derived: who lets one go calls this function, and need not prove the drop of a tree.
impl Drop for Brand {
    fn drop(self) {
        let Brand { tree: _ } = self;
    }
}

impl Brand {
    /// One that binds nothing.
    pub(crate) fn none() -> Brand {
        Brand { tree: Tree::Null }
    }

    /// That of a type.
    pub(crate) fn of_type(alloc: Global, view: &TypeReader<'_>) -> Result<Brand, RequestFault> {
        match brand_of(view)? {
            Some(brand) => Brand::load(alloc, &brand),
            None => Ok(Brand::none()),
        }
    }

    /// What is owned of a brand.
    pub(crate) fn load(alloc: Global, view: &BrandReader<'_>) -> Result<Brand, RequestFault> {
        if view.scopes()?.is_empty() {
            return Ok(Brand::none());
        }
        let tree = view.body.tree(alloc)?;
        Ok(Brand { tree })
    }

    /// Its view, unless it binds nothing.
    fn view(&self) -> Option<BrandReader<'_>> {
        if let Tree::Null = &self.tree {
            return None;
        }
        let body = StructReader::of(PointerReader::of_tree(&self.tree)).ok()?;
        Some(BrandReader { body })
    }
}

/// What the parameters of generics stand for in structs that lie in one another.
#[derive(Drop)]
pub struct Generics<'s> {
    scopes: Vec<Scope<'s>>,
    /// The place of the innermost struct's scope, from 1. In a struct without one, 0, a parameter stands for anything.
    here: usize,
    is_starved: bool,
}

/// Where `Generics::leave` goes back to.
#[derive(Clone, Copy)]
pub struct Entered {
    here: usize,
    count: usize,
}

/// What parameters stand for in a struct.
#[derive(Drop)]
struct Scope<'s> {
    brand: BrandReader<'s>,
    /// The place of the scope that the brand is written in.
    outer: usize,
}

/// A type, and what it binds, as written in the scope of this place.
#[derive(Drop)]
struct Bound<'s> {
    of: Type,
    brand: Option<BrandReader<'s>>,
    here: usize,
}

impl<'s> Generics<'s> {
    /// In no struct yet.
    pub fn new(alloc: Global) -> Generics<'s> {
        Generics {
            scopes: Vec::new(alloc),
            here: 0,
            is_starved: false,
        }
    }

    /// Whether memory ran out.
    pub fn is_starved(&self) -> bool {
        self.is_starved
    }

    /// Goes into a struct of this brand, which lies in no other.
    pub fn begin(&mut self, brand: &'s Brand) {
        if let Some(brand) = brand.view() {
            self.open(Scope { brand, outer: 0 });
        }
    }

    /// Goes into a field of the innermost struct. Answers what it is there, where its type is no parameter that is bound.
    pub fn enter(&mut self, field: &'s StructField) -> (FieldKind, Entered) {
        let entered = Entered {
            here: self.here,
            count: self.scopes.len(),
        };
        let kind = match &field.kind {
            FieldKind::Slot(slot) => FieldKind::Slot(self.enter_slot(slot, &field.brand)),
            // The fields of a group are the struct's own.
            kind => *kind,
        };
        (kind, entered)
    }

    /// Goes back to the struct whose field was entered.
    pub fn leave(&mut self, entered: Entered) {
        self.here = entered.here;
        self.scopes.truncate(entered.count);
    }

    /// The same of one that isn't a group.
    fn enter_slot(&mut self, slot: &Slot, brand: &'s Brand) -> Slot {
        let Bound { of, brand, here } = self.bound(slot.of, brand);
        match brand {
            Some(brand) => self.open(Scope { brand, outer: here }),
            None => self.here = 0,
        }
        Slot { of, ..*slot }
    }

    /// Goes into a scope.
    fn open(&mut self, scope: Scope<'s>) {
        match self.scopes.push(scope) {
            Ok(()) => self.here = self.scopes.len(),
            Err(_) => self.is_starved = true,
        }
    }

    /// What a type of this brand stands for here.
    fn bound(&self, of: Type, brand: &'s Brand) -> Bound<'s> {
        let mut bound = Bound {
            of,
            brand: brand.view(),
            here: self.here,
        };
        // Each scope that tells of a parameter lies further out than the one before.
        for _ in 0..self.scopes.len() {
            let Some(parameter) = bound.of.parameter else {
                break;
            };
            bound = self.further_out(bound.of, parameter, bound.here);
        }
        bound
    }

    /// What a type that is this parameter stands for outside the scope of this place.
    fn further_out(&self, of: Type, parameter: Parameter, here: usize) -> Bound<'s> {
        match self
            .scope(here)
            .and_then(|scope| scope.bound(of, parameter))
        {
            Some(bound) => bound,
            None => Bound {
                of: Type {
                    parameter: None,
                    ..of
                },
                brand: None,
                here: 0,
            },
        }
    }

    /// The scope of this place.
    fn scope(&self, place: usize) -> Option<&Scope<'s>> {
        self.scopes.get(place.checked_sub(1)?)
    }
}

impl<'s> Scope<'s> {
    /// What a type that is this parameter stands for outside. `None`: anything.
    fn bound(&self, of: Type, parameter: Parameter) -> Option<Bound<'s>> {
        for scope in self.brand.scopes().ok()? {
            if scope.scope_id() == parameter.scope {
                return match scope.which() {
                    BrandScopeWhich::Bind => self.bound_to(of, &item(&scope, parameter.index)?),
                    BrandScopeWhich::Inherit => Some(Bound {
                        of,
                        brand: None,
                        here: self.outer,
                    }),
                    BrandScopeWhich::Unknown(_) => None,
                };
            }
        }
        None
    }

    /// The same of a parameter that is bound so.
    fn bound_to(&self, of: Type, binding: &BrandBindingReader<'s>) -> Option<Bound<'s>> {
        if binding.which() != BrandBindingWhich::Type {
            return None;
        }
        let view = binding.type_().ok()?;
        let found = type_of(&view).ok()?;
        Some(Bound {
            of: Type {
                lists: of.lists.saturating_add(found.lists),
                ..found
            },
            brand: brand_of(&view).ok()?,
            here: self.outer,
        })
    }
}

/// What the parameter of this number is bound to. A newer schema may have more than a brand binds.
fn item<'n>(scope: &BrandScopeReader<'n>, index: u16) -> Option<BrandBindingReader<'n>> {
    let items = scope.bind().ok()?;
    let place = index as usize;
    if place < items.len() {
        Some(items.get(place))
    } else {
        None
    }
}

/// The brand of a type, or of what it has lists of, if that is a struct.
fn brand_of<'n>(view: &TypeReader<'n>) -> Result<Option<BrandReader<'n>>, RequestFault> {
    let (_, of) = innermost(view)?;
    match of.which() {
        TypeWhich::Struct => Ok(Some(of.struct_().brand()?)),
        _ => Ok(None),
    }
}
