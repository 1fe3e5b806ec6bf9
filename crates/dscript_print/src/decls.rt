//! Declarations.

ghost use Rattle.std.specs.Prelude.{◌≡◌, IfOk, ◌++◌, ◌∷◌, [], map};
ghost use Rattle.dscript_lex.specs.declared.token.TokenKind.TheVariants as kinds;
ghost use Rattle.dscript_ast.specs.FileTree.{to_marked};
ghost use Rattle.dscript_ast.specs.TypeTree.{to_types};
ghost use Rattle.dscript_ast.specs.Views.{note_tree, param_tree, type_tree, member_tree, stmt_tree};
ghost use Rattle.dscript_ast.specs.Views.{marked_tree, decl_tree};
ghost use Rattle.dscript_print.specs.ExprKinds.{params_kinds};
ghost use Rattle.dscript_print.specs.FileKinds.{interface_kinds, alias_type_kinds, type_params_kinds};
ghost use Rattle.dscript_print.specs.FileKinds.{extends_kinds, block_kinds, body_kinds, marked_kinds};
ghost use Rattle.dscript_print.specs.FileKinds.{decl_kinds, all_marked_kinds};
ghost use Rattle.dscript_print.specs.TypeKinds.{note_kinds, types_kinds, member_kinds};
ghost use Rattle.dscript_print.specs.Written.{Writes};
ghost use Rattle.dscript_print.specs.Runs.{punct, keyword, concat_tokens, separate, word_run};

use crate::exprs::ANY_EXPR;
use crate::types::ANY_TYPE;
use crate::writer::Writer;
use bx_tree::{Memory, Text};
use dscript_ast::{Decl, Marked, Member, Param, Stmt, TypeNode};

impl Writer {
    /// Writes a declaration with its mark.
    #[tactic(auto, unfolding(crate::specs::FileKinds::marked_kinds))]
    #[cycle(decls)]
    pub(crate) fn marked(&mut self, marked: &Marked) -> Result<(), Memory>
        ensures { Writes self.old self.new result (marked_kinds (marked_tree marked.now)) }
    {
        self.mark(marked.mark)?;
        self.decl(&marked.decl)
    }

    /// Writes a declaration.
    #[tactic(auto, unfolding(crate::specs::FileKinds::marked_kinds))]
    #[cycle(decls)]
    fn decl(&mut self, decl: &Decl) -> Result<(), Memory>
        ensures { Writes self.old self.new result (decl_kinds (decl_tree decl.now)) }
    {
        match decl {
            Decl::Const(name, node, value) => self.constant(name, node, value),
            Decl::Function(name, type_params, params, node, body) => {
                self.declared(b"function", name, type_params.as_slice())?;
                self.signature(params.as_slice(), node)?;
                self.body(body.as_slice())
            }
            Decl::Namespace(names, marked) => {
                self.namespace_head(names.as_slice())?;
                self.namespace(marked.as_slice())
            }
            Decl::Interface(name, type_params, extended, members) => self.interface(
                name,
                type_params.as_slice(),
                extended.as_slice(),
                members.as_slice(),
            ),
            Decl::TypeAlias(name, type_params, node) => {
                self.type_alias(name, type_params.as_slice(), node)
            }
        }
    }

    /// Writes declarations in braces, each on a line of its own.
    #[cycle(decls)]
    fn namespace(&mut self, marked: &[Marked]) -> Result<(), Memory>
        ensures { Writes self.old self.new result
            (punct "{" ∷ (concat_tokens (all_marked_kinds (to_marked (map marked_tree marked.now))) ++ (punct "}"
            ∷ []))) }
    {
        self.space();
        self.punctuator(b"{")?;
        self.indent();
        self.all_marked(marked)?;
        self.outdent(marked.is_empty());
        self.punctuator(b"}")
    }

    /// Writes declarations, each on a line of its own.
    #[tactic(auto, unfolding(crate::specs::FileKinds::marked_kinds))]
    #[cycle(decls)]
    fn all_marked(&mut self, marked: &[Marked]) -> Result<(), Memory>
        ensures { Writes self.old self.new result
            (concat_tokens (all_marked_kinds (to_marked (map marked_tree marked.now)))) }
    {
        for one in marked {
            self.line();
            self.marked(one)?;
        }
        Ok(())
    }

    /// Writes the word of a declaration, the name that is declared, and its type parameters.
    fn declared(&mut self, word: &[u8], name: &Text, type_params: &[Text]) -> Result<(), Memory>
        ensures { Writes self.old self.new result
            (kinds.Word word.now ∷ kinds.Word name.now ∷ type_params_kinds type_params.now) }
    {
        self.keyword(word)?;
        self.space();
        self.name(name)?;
        self.type_params(type_params)
    }

    /// Writes the parameters of a function, and its result type where one is written.
    fn signature(&mut self, params: &[Param], node: &Option<Box<TypeNode>>) -> Result<(), Memory>
        ensures { Writes self.old self.new result
            (params_kinds (map param_tree params.now) ++ note_kinds (note_tree node.now)) }
    {
        self.params(params)?;
        self.note(node)
    }

    /// Writes `namespace` and a dotted name.
    fn namespace_head(&mut self, names: &[Text]) -> Result<(), Memory>
        ensures { Writes self.old self.new result
            (keyword "namespace" ∷ separate "." (map word_run names.now)) }
    {
        self.keyword(b"namespace")?;
        self.space();
        self.dotted(names)
    }

    /// Writes an interface.
    fn interface(
        &mut self,
        name: &Text,
        type_params: &[Text],
        extended: &[TypeNode],
        members: &[Member],
    ) -> Result<(), Memory>
        ensures { Writes self.old self.new result
            (interface_kinds name.now type_params.now (map type_tree extended.now)
            (map member_tree members.now)) }
    {
        self.declared(b"interface", name, type_params)?;
        self.extends(extended)?;
        self.lined_body(members)
    }

    /// Writes a name for a type.
    fn type_alias(
        &mut self,
        name: &Text,
        type_params: &[Text],
        node: &TypeNode,
    ) -> Result<(), Memory>
        ensures { Writes self.old self.new result
            (alias_type_kinds name.now type_params.now (type_tree node.now)) }
    {
        self.declared(b"type", name, type_params)?;
        self.spaced(b"=")?;
        self.type_node(node, ANY_TYPE)?;
        self.punctuator(b";")
    }

    /// Writes the body of a function.
    fn body(&mut self, body: &[Stmt]) -> Result<(), Memory>
        ensures { Writes self.old self.new result (block_kinds (map stmt_tree body.now)) }
    {
        self.space();
        self.block(body)
    }

    /// Writes the types that an interface extends, where there are any.
    #[tactic(auto, using(crate::proofs::Declarations::none_extended, crate::proofs::Declarations::some_extended))]
    fn extends(&mut self, types: &[TypeNode]) -> Result<(), Memory>
        ensures { Writes self.old self.new result (extends_kinds (map type_tree types.now)) }
    {
        match types.first() {
            None => Ok(()),
            Some(_) => self.extended(types),
        }
    }

    /// Writes `extends` and types.
    fn extended(&mut self, types: &[TypeNode]) -> Result<(), Memory>
        ensures { Writes self.old self.new result
            (keyword "extends" ∷ separate "," (types_kinds (to_types (map type_tree types.now)))) }
    {
        self.space();
        self.keyword(b"extends")?;
        self.space();
        self.types(types)
    }

    /// Writes members in braces, each on a line of its own.
    fn lined_body(&mut self, members: &[Member]) -> Result<(), Memory>
        ensures { Writes self.old self.new result (body_kinds (map member_tree members.now)) }
    {
        self.space();
        self.punctuator(b"{")?;
        self.indent();
        self.lined_members(members)?;
        self.outdent(members.is_empty());
        self.punctuator(b"}")
    }

    /// Writes members, each on a line of its own.
    fn lined_members(&mut self, members: &[Member]) -> Result<(), Memory>
        ensures { Writes self.old self.new result (concat_tokens (map member_kinds (map member_tree members.now))) }
    {
        for member in members {
            self.line();
            self.member(member)?;
        }
        Ok(())
    }
}
