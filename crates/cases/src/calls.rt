// A call of `named` of declarations, which no program makes.
#[cfg(test)]
mod tests {
    use declarations::rows::named;
    use values::properties::Decl;

    #[test]
    fn an_unknown_declaration_loses_its_name_alone(rt: HostRuntime) {
        let unknown = Decl::Unknown(5);
        assert!(rt; matches!(named(unknown, true), Decl::Unknown(5)));
        assert!(rt; matches!(named(unknown, false), Decl::Unknown(0)));
        assert!(rt; matches!(named(Decl::Content(5), false), Decl::Content(5)));
        assert!(rt; matches!(named(Decl::Color(0xff0000), false), Decl::Color(0xff0000)));
    }
}
